//! Which crate a frame or a node belongs to.

ghost use Rattle.std.specs.Prelude.{◌≡◌};
ghost use Rattle.model_run.specs.FrameTable.{is_method};
ghost use Rattle.script_laws.specs.NodeParts.{is_expression};
ghost use Rattle.cps_assignments.specs.Kinds.{goes_on_here as goes_on_assigned, starts_here as starts_assigned};
ghost use Rattle.cps_calls.specs.Calls.{is_call_frame};
ghost use Rattle.cps_expressions.specs.Frames.{is_expression_frame};
ghost use Rattle.cps_statements.specs.Kinds.{goes_on_here, starts_here, turns_here};

use model_run::FrameKind;
use model_syntax::NodeForm;

/// A frame of a statement.
pub fn is_of_statement(kind: &FrameKind) -> bool
    ensures { result ≡ goes_on_here kind.now }
{
    matches!(
        kind,
        FrameKind::Statement
            | FrameKind::IfTest
            | FrameKind::WhileTest
            | FrameKind::WhileBody
            | FrameKind::StepsFirst
            | FrameKind::StepsTest
            | FrameKind::StepsBody
            | FrameKind::StepsNext
            | FrameKind::EachOver
            | FrameKind::EachBody
            | FrameKind::TryBlock
            | FrameKind::TryCatch
            | FrameKind::FinallyAfterValue
            | FrameKind::FinallyAfterThrow
            | FrameKind::FinallyAfterReturn
            | FrameKind::FinallyAfterBreak
            | FrameKind::FinallyAfterContinue
            | FrameKind::ReturnValue
            | FrameKind::ThrowValue
    )
}

/// A statement, or a row of them.
pub fn is_statement(form: &NodeForm) -> bool
    ensures { result ≡ starts_here form.now }
{
    matches!(
        form,
        NodeForm::Script
            | NodeForm::Block
            | NodeForm::If
            | NodeForm::While
            | NodeForm::ForEach(_)
            | NodeForm::ForSteps
            | NodeForm::Try
            | NodeForm::Evaluate
            | NodeForm::Return
            | NodeForm::Break
            | NodeForm::Continue
            | NodeForm::Throw
    )
}

/// A loop.
pub fn is_loop(form: &NodeForm) -> bool
    ensures { result ≡ turns_here form.now }
{
    matches!(
        form,
        NodeForm::While | NodeForm::ForEach(_) | NodeForm::ForSteps
    )
}

/// A frame of a declaration or an assignment.
pub fn is_of_assignment(kind: &FrameKind) -> bool
    ensures { result ≡ goes_on_assigned kind.now }
{
    matches!(
        kind,
        FrameKind::DeclareValue
            | FrameKind::TargetReceiver
            | FrameKind::TargetIndex
            | FrameKind::AssignValue
    )
}

/// A frame of an expression.
pub fn is_of_expression(kind: &FrameKind) -> bool
    ensures { result ≡ is_expression_frame kind.now }
{
    matches!(
        kind,
        FrameKind::Gathered
            | FrameKind::GatheredKey
            | FrameKind::GroupValue
            | FrameKind::ChosenTest
            | FrameKind::ChainOperand
            | FrameKind::JoinedFirst
            | FrameKind::JoinedOperand
            | FrameKind::PrefixedOperand
            | FrameKind::SuffixedPart
            | FrameKind::IndexValue
    )
}

/// A frame of a call.
pub fn is_of_call(kind: &FrameKind) -> bool
    ensures { result ≡ is_call_frame kind.now }
{
    matches!(kind, FrameKind::CallBody | FrameKind::WalkTurn)
}

/// A declaration or an assignment.
pub fn is_assignment(form: &NodeForm) -> bool
    ensures { result ≡ starts_assigned form.now }
{
    matches!(
        form,
        NodeForm::Declare(_) | NodeForm::Assign(_) | NodeForm::Increment | NodeForm::Decrement
    )
}

/// An expression.
pub fn is_expression(form: &NodeForm) -> bool
    ensures { result ≡ is_expression form.now }
{
    matches!(
        form,
        NodeForm::Number(_)
            | NodeForm::Literal(_)
            | NodeForm::GString
            | NodeForm::True
            | NodeForm::False
            | NodeForm::Null
            | NodeForm::Variable(_)
            | NodeForm::Call(_)
            | NodeForm::Group
            | NodeForm::List
            | NodeForm::Map
            | NodeForm::Closure(_)
            | NodeForm::New(_)
            | NodeForm::Suffixed
            | NodeForm::Prefixed
            | NodeForm::Joined
            | NodeForm::And
            | NodeForm::Or
            | NodeForm::Chosen
    )
}

/// A call of a method, which may go over elements.
pub fn is_walk(form: &NodeForm) -> bool
    ensures { result ≡ is_method form.now }
{
    matches!(form, NodeForm::Method(_, _))
}
