ghost use Rattle.std.specs.Prelude.{◌≡◌, nat_eq, option_map};
ghost use Rattle.std.specs.Cmp.Lexicographic.{pointwise};
ghost use Rattle.std.specs.Map.{lookup};
ghost use Rattle.model_values.specs.MethodNames.{method_named};
ghost use Rattle.method_names.specs.Names.{name_of, rows, seen};

/// A method of a script's values, by its name alone: which values have it, and with how many arguments, the method
/// table says.
#[derive(Clone, Copy, Debug, PartialEq, Eq)]
pub enum Method {
    ToString,
    Equals,
    Size,
    Length,
    IsEmpty,
    Trim,
    ToUpperCase,
    ToLowerCase,
    Contains,
    StartsWith,
    EndsWith,
    IndexOf,
    Replace,
    Substring,
    Tokenize,
    ReadLines,
    ToInteger,
    Add,
    Get,
    First,
    Last,
    Join,
    Reverse,
    Put,
    ContainsKey,
    Remove,
    KeySet,
    Values,
    Each,
    Collect,
    Find,
    FindAll,
    Any,
    Every,
    Times,
    Intdiv,
    GetMessage,
    Call,
}

impl Method {
    /// All methods.
    const ALL: [Method; 38] = [
        Method::ToString,
        Method::Equals,
        Method::Size,
        Method::Length,
        Method::IsEmpty,
        Method::Trim,
        Method::ToUpperCase,
        Method::ToLowerCase,
        Method::Contains,
        Method::StartsWith,
        Method::EndsWith,
        Method::IndexOf,
        Method::Replace,
        Method::Substring,
        Method::Tokenize,
        Method::ReadLines,
        Method::ToInteger,
        Method::Add,
        Method::Get,
        Method::First,
        Method::Last,
        Method::Join,
        Method::Reverse,
        Method::Put,
        Method::ContainsKey,
        Method::Remove,
        Method::KeySet,
        Method::Values,
        Method::Each,
        Method::Collect,
        Method::Find,
        Method::FindAll,
        Method::Any,
        Method::Every,
        Method::Times,
        Method::Intdiv,
        Method::GetMessage,
        Method::Call,
    ];

    /// The name by which a script calls it.
    pub fn name(self) -> &'static str
        ensures { result.now ≡ name_of self }
    {
        match self {
            Method::ToString => "toString",
            Method::Equals => "equals",
            Method::Size => "size",
            Method::Length => "length",
            Method::IsEmpty => "isEmpty",
            Method::Trim => "trim",
            Method::ToUpperCase => "toUpperCase",
            Method::ToLowerCase => "toLowerCase",
            Method::Contains => "contains",
            Method::StartsWith => "startsWith",
            Method::EndsWith => "endsWith",
            Method::IndexOf => "indexOf",
            Method::Replace => "replace",
            Method::Substring => "substring",
            Method::Tokenize => "tokenize",
            Method::ReadLines => "readLines",
            Method::ToInteger => "toInteger",
            Method::Add => "add",
            Method::Get => "get",
            Method::First => "first",
            Method::Last => "last",
            Method::Join => "join",
            Method::Reverse => "reverse",
            Method::Put => "put",
            Method::ContainsKey => "containsKey",
            Method::Remove => "remove",
            Method::KeySet => "keySet",
            Method::Values => "values",
            Method::Each => "each",
            Method::Collect => "collect",
            Method::Find => "find",
            Method::FindAll => "findAll",
            Method::Any => "any",
            Method::Every => "every",
            Method::Times => "times",
            Method::Intdiv => "intdiv",
            Method::GetMessage => "getMessage",
            Method::Call => "call",
        }
    }

    /// The method of this name, and `None` exactly where no method has it.
    pub fn named(name: &[u8]) -> Option<Method>
        ensures { option_map seen result ≡ method_named name.now }
    {
        first_named(&Method::ALL, name)
    }
}

/// The first of these methods that has this name.
fn first_named(methods: &[Method], name: &[u8]) -> Option<Method>
    ensures { option_map seen result ≡ lookup (pointwise nat_eq name.now) (rows methods.now) }
{
    for method in methods {
        if name == method.name().as_bytes() {
            return Some(*method);
        }
    }
    None
}
