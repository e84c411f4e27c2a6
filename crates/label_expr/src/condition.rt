ghost use Rattle.std.specs.Prelude.{◌≡◌, ◌%◌, List, ℕ, Bool, map, true, IfOk, ◌∷◌, [], nat_eq};
ghost use Rattle.std.specs.Cmp.Lexicographic.{pointwise};
ghost use Rattle.std.specs.List.{list_all, list_any};
ghost use Rattle.model_run.specs.Labels.{Formula, Named, Not, And, Or, Implies, Iff, holds};
ghost use Rattle.label_expr.specs.Conditions.{formula, joined, negated, fits};

use model_text::Text;
use sqlite_items::{Boxed, Items};
use std::alloc::{AllocError, Global};

/// What is asked of the labels of an executor. Operands of one sign stand in one list, and the `!` before an operand in
/// one number, so that a condition is as deep as the parentheses of its text and no deeper: no other crate can name this
/// type, and so none can make a condition by hand that is too deep for the stack.
#[derive(Drop)]
pub enum Condition {
    /// This is one of the labels.
    Label(Text),
    /// So many `!` before a condition, at least one.
    Not(usize, Boxed<Condition>),
    /// `a && b && c`: the first, and those behind it, at least one.
    All(Boxed<Condition>, Items<Condition>),
    /// `a || b || c`: the first, and those behind it, at least one.
    AnyOf(Boxed<Condition>, Items<Condition>),
    /// `a -> b`
    Implies(Boxed<Condition>, Boxed<Condition>),
    /// `a <-> b`
    Iff(Boxed<Condition>, Boxed<Condition>),
}

/// Which executors a `node` step takes: what [`parse`](crate::parse) or [`read_label`](crate::read_label) gave, or any.
#[derive(Drop)]
pub enum LabelExpr {
    /// Any executor: a step without a label, or with a blank one.
    Any,
    /// Those of whose labels this holds.
    Where(Condition),
}

impl LabelExpr {
    /// Whether an executor with these labels fits. It takes no memory.
    pub fn matches(&self, labels: &[Text]) -> bool
        ensures { result ≡ fits labels.now self.now }
    {
        match self {
            LabelExpr::Any => true,
            LabelExpr::Where(condition) => condition.holds(labels),
        }
    }
}

impl Condition {
    /// Whether it holds of these labels. Calls are as deep as the condition is.
    #[cycle(holding)]
    fn holds(&self, labels: &[Text]) -> bool
        ensures { result ≡ holds labels.now (formula self.now) }
    {
        match self {
            Condition::Label(name) => is_label(name, labels),
            Condition::Not(signs, of) => {
                let holds = of.get().holds(labels);
                if *signs % 2 == 0 { holds } else { !holds }
            }
            Condition::All(first, more) => first.get().holds(labels)
                && all_hold(more.as_slice(), labels),
            Condition::AnyOf(first, more) => first.get().holds(labels)
                || any_holds(more.as_slice(), labels),
            Condition::Implies(first, second) => !first.get().holds(labels)
                || second.get().holds(labels),
            Condition::Iff(first, second) => first.get().holds(labels)
                == second.get().holds(labels),
        }
    }
}

fn is_label(name: &Text, labels: &[Text]) -> bool
    ensures { result ≡ list_any (pointwise nat_eq name.now) labels.now }
{
    labels.iter().any(|label| name == label)
}

#[cycle(holding)]
fn all_hold(conditions: &[Condition], labels: &[Text]) -> bool
    ensures { result ≡ list_all (holds labels.now) (map formula conditions.now) }
{
    for condition in conditions {
        if !condition.holds(labels) {
            return false;
        }
    }
    true
}

#[cycle(holding)]
fn any_holds(conditions: &[Condition], labels: &[Text]) -> bool
    ensures { result ≡ list_any (holds labels.now) (map formula conditions.now) }
{
    for condition in conditions {
        if condition.holds(labels) {
            return true;
        }
    }
    false
}
