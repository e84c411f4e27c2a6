//! Trees as text, so that a test can write the tree that it expects.
//!
//! The text is Groovy's with all that the tree says made plain: each operation stands in parentheses, each call has its
//! arguments in parentheses, `group(..)` is a pair of parentheses of the script, and statements have `; ` between them.

use model_syntax::{
    Access, Arguments, Arm, AssignSign, Assignment, Catch, Caught, Choice, Declared, Entry, Expr,
    Function, NewClass, Operand, Operator, Part, Prefix, Stmt, Suffix, Target, Top, Tree,
};
use model_text::Text;
use std::alloc::{AllocError, Global};

/// The text of a tree.
pub fn sketch_of(alloc: Global, tree: &Tree) -> Result<String, AllocError> {
    let mut sketch = Sketch {
        alloc,
        text: String::new(alloc),
    };
    for (index, top) in tree.tops.as_slice().iter().enumerate() {
        sketch.between(index, "; ")?;
        sketch.top(top)?;
    }
    Ok(sketch.text)
}

/// The text of an expression.
pub fn sketch_of_expression(alloc: Global, value: &Expr) -> Result<String, AllocError> {
    let mut sketch = Sketch {
        alloc,
        text: String::new(alloc),
    };
    sketch.expression(value)?;
    Ok(sketch.text)
}

/// The text so far.
#[derive(Drop)]
struct Sketch {
    alloc: Global,
    text: String,
}

impl Sketch {
    fn put(&mut self, text: &str) -> Result<(), AllocError> {
        self.text.push_str(text)?;
        Ok(())
    }

    /// What stands between two parts, before each part but the first.
    fn between(&mut self, index: usize, sign: &str) -> Result<(), AllocError> {
        if index == 0 {
            return Ok(());
        }
        self.put(sign)
    }

    fn name(&mut self, name: &Text) -> Result<(), AllocError> {
        self.put(str::from_utf8(name.as_slice()).unwrap_or("?"))
    }

    fn number(&mut self, value: i32) -> Result<(), AllocError> {
        let digits = format!(in self.alloc; "{value}")?;
        self.put(digits.as_str())
    }

    fn top(&mut self, top: &Top) -> Result<(), AllocError> {
        match top {
            Top::Function(function) => self.function(function),
            Top::Statement(_, statement) => self.statement(statement),
        }
    }

    fn function(&mut self, function: &Function) -> Result<(), AllocError> {
        self.put("function ")?;
        self.name(&function.name.name)?;
        self.put("(")?;
        self.heads(function.parameters.as_slice())?;
        self.put(") ")?;
        self.block(function.body.as_slice())
    }

    fn heads(&mut self, names: &[Declared]) -> Result<(), AllocError> {
        for (index, name) in names.iter().enumerate() {
            self.between(index, ", ")?;
            self.name(&name.name)?;
        }
        Ok(())
    }

    #[cycle(sketch)]
    fn block(&mut self, statements: &[Stmt]) -> Result<(), AllocError> {
        self.put("{")?;
        self.statements(statements)?;
        self.put("}")
    }

    #[cycle(sketch)]
    fn statements(&mut self, statements: &[Stmt]) -> Result<(), AllocError> {
        for (index, statement) in statements.iter().enumerate() {
            self.between(index, "; ")?;
            self.statement(statement)?;
        }
        Ok(())
    }

    #[cycle(sketch)]
    fn statement(&mut self, statement: &Stmt) -> Result<(), AllocError> {
        match statement {
            Stmt::If(arms, other) => {
                self.arms(arms.as_slice())?;
                if let Some(other) = other {
                    self.put(" else ")?;
                    self.block(other.as_slice())?;
                }
                Ok(())
            }
            Stmt::While(test, body) => {
                self.put("while (")?;
                self.expression(test)?;
                self.put(") ")?;
                self.block(body.as_slice())
            }
            Stmt::ForEach(_, _, _)
            | Stmt::ForDeclared(_, _, _, _, _)
            | Stmt::ForSteps(_, _, _, _) => self.loop_statement(statement),
            Stmt::Try(body, catches, last) => {
                self.put("try ")?;
                self.block(body.as_slice())?;
                self.catches(catches.as_slice())?;
                if let Some(last) = last {
                    self.put(" finally ")?;
                    self.block(last.as_slice())?;
                }
                Ok(())
            }
            _ => self.simple(statement),
        }
    }

    #[cycle(sketch)]
    fn loop_statement(&mut self, statement: &Stmt) -> Result<(), AllocError> {
        match statement {
            Stmt::ForEach(name, values, body) => {
                self.put("for (")?;
                self.name(&name.name)?;
                self.put(" in ")?;
                self.expression(values)?;
                self.put(") ")?;
                self.block(body.as_slice())
            }
            Stmt::ForDeclared(name, value, test, step, body) => {
                self.put("for (def ")?;
                self.name(&name.name)?;
                self.put(" = ")?;
                self.expression(value)?;
                self.test(test)?;
                self.assignment(step.get())?;
                self.put(") ")?;
                self.block(body.as_slice())
            }
            Stmt::ForSteps(first, test, step, body) => {
                self.put("for (")?;
                self.assignment(first.get())?;
                self.test(test)?;
                self.assignment(step.get())?;
                self.put(") ")?;
                self.block(body.as_slice())
            }
            _ => Ok(()),
        }
    }

    /// The test of a `for` with steps, between its first part and its last.
    #[cycle(sketch)]
    fn test(&mut self, test: &Expr) -> Result<(), AllocError> {
        self.put("; ")?;
        self.expression(test)?;
        self.put("; ")
    }

    #[cycle(sketch)]
    fn assignment(&mut self, assignment: &Assignment) -> Result<(), AllocError> {
        match assignment {
            Assignment::Write(target, sign, value) => {
                self.target(target)?;
                self.put(assign_text(*sign))?;
                self.expression(value)
            }
            Assignment::Increment(target) => {
                self.target(target)?;
                self.put("++")
            }
            Assignment::Decrement(target) => {
                self.target(target)?;
                self.put("--")
            }
        }
    }

    #[cycle(sketch)]
    fn simple(&mut self, statement: &Stmt) -> Result<(), AllocError> {
        match statement {
            Stmt::Declare(name, value) => {
                self.put("def ")?;
                self.name(&name.name)?;
                self.value(" = ", value)
            }
            Stmt::Assign(assignment) => self.assignment(assignment),
            Stmt::Evaluate(value) => self.expression(value),
            Stmt::Return(value) => {
                self.put("return")?;
                self.value(" ", value)
            }
            Stmt::Throw(value) => {
                self.put("throw ")?;
                self.expression(value)
            }
            Stmt::Break(_) => self.put("break"),
            Stmt::Continue(_) => self.put("continue"),
            _ => Ok(()),
        }
    }

    #[cycle(sketch)]
    fn value(&mut self, before: &str, value: &Option<Expr>) -> Result<(), AllocError> {
        let Some(value) = value else {
            return Ok(());
        };
        self.put(before)?;
        self.expression(value)
    }

    #[cycle(sketch)]
    fn arms(&mut self, arms: &[Arm]) -> Result<(), AllocError> {
        for (index, arm) in arms.iter().enumerate() {
            self.between(index, " else ")?;
            self.put("if (")?;
            self.expression(&arm.test)?;
            self.put(") ")?;
            self.block(arm.body.as_slice())?;
        }
        Ok(())
    }

    #[cycle(sketch)]
    fn catches(&mut self, catches: &[Catch]) -> Result<(), AllocError> {
        for catch in catches {
            self.put(match catch.caught {
                Caught::Exceptions => " catch (Exception ",
                Caught::Throwables => " catch (Throwable ",
            })?;
            self.name(&catch.name.name)?;
            self.put(") ")?;
            self.block(catch.body.as_slice())?;
        }
        Ok(())
    }

    #[cycle(sketch)]
    fn target(&mut self, target: &Target) -> Result<(), AllocError> {
        match target {
            Target::ToName(name) => self.name(name),
            Target::ToProperty(of, name) => {
                self.expression(of)?;
                self.put(".")?;
                self.name(name)
            }
            Target::ToIndex(of, index) => {
                self.expression(of)?;
                self.put("[")?;
                self.expression(index)?;
                self.put("]")
            }
        }
    }

    #[cycle(sketch)]
    fn expression(&mut self, value: &Expr) -> Result<(), AllocError> {
        match value {
            Expr::Number(value) => self.number(*value),
            Expr::True => self.put("true"),
            Expr::False => self.put("false"),
            Expr::Null => self.put("null"),
            Expr::Variable(name) => self.name(name),
            Expr::Literal(text) => {
                self.put("'")?;
                self.name(text)?;
                self.put("'")
            }
            Expr::GString(parts) => {
                self.put("\"")?;
                self.parts(parts.as_slice())?;
                self.put("\"")
            }
            Expr::Call(name, arguments) => {
                self.name(name)?;
                self.arguments(arguments)
            }
            Expr::Group(inner) => {
                self.put("group(")?;
                self.expression(inner.get())?;
                self.put(")")
            }
            Expr::List(_) | Expr::Map(_) | Expr::Closure(_, _) | Expr::New(_, _) =>
                self.constructed(value),
            _ => self.operation(value),
        }
    }

    #[cycle(sketch)]
    fn constructed(&mut self, value: &Expr) -> Result<(), AllocError> {
        match value {
            Expr::List(values) => {
                self.put("[")?;
                self.expressions(values.as_slice(), ", ")?;
                self.put("]")
            }
            Expr::Map(entries) => {
                self.put(if entries.is_empty() { "[:" } else { "[" })?;
                self.entries(entries.as_slice())?;
                self.put("]")
            }
            Expr::Closure(heads, body) => {
                self.put("{")?;
                if let Some(heads) = heads {
                    self.heads(heads.as_slice())?;
                    self.put(" -> ")?;
                }
                self.statements(body.as_slice())?;
                self.put("}")
            }
            Expr::New(class, message) => {
                self.put(class_text(*class))?;
                if let Some(message) = message {
                    self.expression(message.get())?;
                }
                self.put(")")
            }
            _ => Ok(()),
        }
    }

    #[cycle(sketch)]
    fn operation(&mut self, value: &Expr) -> Result<(), AllocError> {
        match value {
            Expr::Suffixed(of, suffixes) => {
                self.expression(of.get())?;
                self.suffixes(suffixes.as_slice())
            }
            Expr::Prefixed(signs, operand) => {
                self.put("(")?;
                self.prefixes(signs.as_slice())?;
                self.expression(operand.get())?;
                self.put(")")
            }
            Expr::Joined(first, others) => {
                self.put("(")?;
                self.expression(first.get())?;
                self.operands(others.as_slice())?;
                self.put(")")
            }
            Expr::And(operands) => {
                self.put("(")?;
                self.expressions(operands.as_slice(), " && ")?;
                self.put(")")
            }
            Expr::Or(operands) => {
                self.put("(")?;
                self.expressions(operands.as_slice(), " || ")?;
                self.put(")")
            }
            Expr::Chosen(choices, last) => {
                self.put("(")?;
                self.choices(choices.as_slice())?;
                self.expression(last.get())?;
                self.put(")")
            }
            _ => Ok(()),
        }
    }

    #[cycle(sketch)]
    fn expressions(&mut self, values: &[Expr], sign: &str) -> Result<(), AllocError> {
        for (index, value) in values.iter().enumerate() {
            self.between(index, sign)?;
            self.expression(value)?;
        }
        Ok(())
    }

    #[cycle(sketch)]
    fn parts(&mut self, parts: &[Part]) -> Result<(), AllocError> {
        for part in parts {
            match part {
                Part::Plain(text) => self.name(text)?,
                Part::Inner(value) => {
                    self.put("${")?;
                    self.expression(value)?;
                    self.put("}")?;
                }
            }
        }
        Ok(())
    }

    #[cycle(sketch)]
    fn arguments(&mut self, arguments: &Arguments) -> Result<(), AllocError> {
        self.put("(")?;
        self.entries(arguments.named.as_slice())?;
        if !arguments.named.is_empty() && !arguments.ordered.is_empty() {
            self.put(", ")?;
        }
        self.expressions(arguments.ordered.as_slice(), ", ")?;
        self.put(")")
    }

    #[cycle(sketch)]
    fn entries(&mut self, entries: &[Entry]) -> Result<(), AllocError> {
        for (index, entry) in entries.iter().enumerate() {
            self.between(index, ", ")?;
            self.entry(entry)?;
        }
        Ok(())
    }

    #[cycle(sketch)]
    fn entry(&mut self, entry: &Entry) -> Result<(), AllocError> {
        let value = match entry {
            Entry::Named(key, value) => {
                self.name(key)?;
                value
            }
            Entry::Numbered(key, value) => {
                self.number(*key)?;
                value
            }
            Entry::Computed(key, value) => {
                self.put("(")?;
                self.expression(key)?;
                self.put(")")?;
                value
            }
        };
        self.put(": ")?;
        self.expression(value)
    }

    #[cycle(sketch)]
    fn suffixes(&mut self, suffixes: &[Suffix]) -> Result<(), AllocError> {
        for suffix in suffixes {
            self.suffix(suffix)?;
        }
        Ok(())
    }

    #[cycle(sketch)]
    fn suffix(&mut self, suffix: &Suffix) -> Result<(), AllocError> {
        match suffix {
            Suffix::Property(access, name) => {
                self.put(access_text(*access))?;
                self.name(name)
            }
            Suffix::Method(access, name, arguments) => {
                self.put(access_text(*access))?;
                self.name(name)?;
                self.arguments(arguments)
            }
            Suffix::Index(index) => {
                self.put("[")?;
                self.expression(index)?;
                self.put("]")
            }
        }
    }

    fn prefixes(&mut self, signs: &[Prefix]) -> Result<(), AllocError> {
        for sign in signs {
            self.put(match sign {
                Prefix::Not => "!",
                Prefix::Negative => "-",
                Prefix::Positive => "+",
            })?;
        }
        Ok(())
    }

    #[cycle(sketch)]
    fn operands(&mut self, operands: &[Operand]) -> Result<(), AllocError> {
        for operand in operands {
            self.put(operator_text(operand.operator))?;
            self.expression(&operand.value)?;
        }
        Ok(())
    }

    #[cycle(sketch)]
    fn choices(&mut self, choices: &[Choice]) -> Result<(), AllocError> {
        for choice in choices {
            match choice {
                Choice::IfTrue(test, value) => {
                    self.expression(test)?;
                    self.put(" ? ")?;
                    self.expression(value)?;
                    self.put(" : ")?;
                }
                Choice::IfSet(value) => {
                    self.expression(value)?;
                    self.put(" ?: ")?;
                }
            }
        }
        Ok(())
    }
}

fn access_text(access: Access) -> &'static str {
    match access {
        Access::Direct => ".",
        Access::NullSafe => "?.",
    }
}

fn class_text(class: NewClass) -> &'static str {
    match class {
        NewClass::Exception => "new Exception(",
        NewClass::RuntimeException => "new RuntimeException(",
        NewClass::Error => "new Error(",
    }
}

fn assign_text(sign: AssignSign) -> &'static str {
    match sign {
        AssignSign::Set => " = ",
        AssignSign::AddTo => " += ",
        AssignSign::SubtractFrom => " -= ",
        AssignSign::MultiplyBy => " *= ",
        AssignSign::ReduceBy => " %= ",
    }
}

fn operator_text(operator: Operator) -> &'static str {
    match operator {
        Operator::Plus => " + ",
        Operator::Minus => " - ",
        Operator::Times => " * ",
        Operator::Mod => " % ",
        Operator::Range => " .. ",
        Operator::Less => " < ",
        Operator::LessEqual => " <= ",
        Operator::Greater => " > ",
        Operator::GreaterEqual => " >= ",
        Operator::Equal => " == ",
        Operator::NotEqual => " != ",
    }
}
