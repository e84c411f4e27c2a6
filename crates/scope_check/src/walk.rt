ghost use Rattle.std.specs.Prelude.{◌≡◌, [], ◌∷◌, ◌++◌, map, OnOk};
ghost use Rattle.std.specs.Option.{option_map};
ghost use Rattle.model_syntax.specs.Scopes.{Marks, all, block, loop, callable, if_any, block_if_any, declares_each, heads, arm_marks, assignment_marks, catch_marks, choice_marks, entry_marks, expr_marks, operand_marks, part_marks, stmt_marks, suffix_marks, target_marks, arguments_marks, top_marks, function_marks};
ghost use Rattle.scope_check.specs.Walk.{walked};
ghost use Rattle.scope_check.specs.Kinds.{IsIf, IsForDeclared, IsForEach, IsForSteps, IsTry};

use crate::scopes::Scopes;
use model_syntax::{
    Arguments, Arm, Assignment, Catch, Choice, Declared, Entry, Expr, FaultKind, Function, Operand,
    Part, Stmt, Suffix, Target, Top,
};
use sqlite_items::Boxed;
use std::alloc::AllocError;

/// The walk: each of these goes once through its part of a tree, in the order of the script, and tells the scopes what it
/// meets. It goes on behind a fault, since the scopes keep the first. `AllocError` comes where the memory was refused.
#[tactic(auto, using(crate::proofs::WalkLaws::walking))]
impl Scopes {
    /// The functions and statements of a script.
    pub fn tops(&mut self, tops: &[Top]) -> Result<(), AllocError>
        ensures { OnOk result (self.new ≡ walked (all (map top_marks tops.now)) self.old) }
    {
        for top in tops {
            self.top(top)?;
        }
        Ok(())
    }

    fn top(&mut self, top: &Top) -> Result<(), AllocError>
        ensures { OnOk result (self.new ≡ walked (top_marks top.now) self.old) }
    {
        match top {
            Top::Function(function) => self.function(function),
            Top::Statement(_, statement) => self.statement(statement),
        }
    }

    fn function(&mut self, function: &Function) -> Result<(), AllocError>
        ensures { OnOk result (self.new ≡ walked (function_marks function.now) self.old) }
    {
        self.declare_function(&function.name)?;
        self.callable(function.parameters.as_slice(), function.body.as_slice())
    }

    /// Parameters and the statements behind them: a scope in no loop.
    #[cycle(walk)]
    fn callable(&mut self, parameters: &[Declared], body: &[Stmt]) -> Result<(), AllocError>
        ensures { OnOk result (self.new ≡ walked (callable (declares_each parameters.now) (all (map stmt_marks body.now))) self.old) }
    {
        self.open(false)?;
        self.parameters(parameters)?;
        self.statements(body)?;
        self.close();
        Ok(())
    }

    /// A closure without heads, which has the parameter `it`.
    #[cycle(walk)]
    fn closure_with_it(&mut self, body: &[Stmt]) -> Result<(), AllocError>
        ensures { OnOk result (self.new ≡ walked (callable (heads None) (all (map stmt_marks body.now))) self.old) }
    {
        self.open(false)?;
        self.declare_it()?;
        self.statements(body)?;
        self.close();
        Ok(())
    }

    fn parameters(&mut self, parameters: &[Declared]) -> Result<(), AllocError>
        ensures { OnOk result (self.new ≡ walked (declares_each parameters.now) self.old) }
    {
        for parameter in parameters {
            self.declare(parameter)?;
        }
        Ok(())
    }

    #[cycle(walk)]
    fn statements(&mut self, statements: &[Stmt]) -> Result<(), AllocError>
        ensures { OnOk result (self.new ≡ walked (all (map stmt_marks statements.now)) self.old) }
    {
        for statement in statements {
            self.statement(statement)?;
        }
        Ok(())
    }

    /// A block: a scope in a loop where the one around it is.
    #[cycle(walk)]
    fn block(&mut self, statements: &[Stmt]) -> Result<(), AllocError>
        ensures { OnOk result (self.new ≡ walked (block (map stmt_marks statements.now)) self.old) }
    {
        self.open(self.inner.in_loop)?;
        self.statements(statements)?;
        self.close();
        Ok(())
    }

    /// The body of a loop: a scope in a loop.
    #[cycle(walk)]
    fn loop_body(&mut self, statements: &[Stmt]) -> Result<(), AllocError>
        ensures { OnOk result (self.new ≡ walked (loop (map stmt_marks statements.now)) self.old) }
    {
        self.open(true)?;
        self.statements(statements)?;
        self.close();
        Ok(())
    }

    #[cycle(walk)]
    fn statement(&mut self, statement: &Stmt) -> Result<(), AllocError>
        ensures { OnOk result (self.new ≡ walked (stmt_marks statement.now) self.old) }
    {
        match statement {
            Stmt::If(_, _) => self.if_block(statement),
            Stmt::While(test, body) => {
                self.expression(test)?;
                self.loop_body(body.as_slice())
            }
            Stmt::ForEach(_, _, _) => self.for_each(statement),
            Stmt::ForDeclared(_, _, _, _, _) => self.for_declared(statement),
            Stmt::ForSteps(_, _, _, _) => self.for_steps(statement),
            Stmt::Try(_, _, _) => self.try_block(statement),
            Stmt::Declare(name, value) => {
                self.declare(name)?;
                self.value(value)
            }
            Stmt::Assign(assignment) => self.assignment(assignment),
            Stmt::Evaluate(value) | Stmt::Throw(value) => self.expression(value),
            Stmt::Return(value) => self.value(value),
            Stmt::Break(place) => {
                self.need_loop(FaultKind::BreakOutsideLoop, *place);
                Ok(())
            }
            Stmt::Continue(place) => {
                self.need_loop(FaultKind::ContinueOutsideLoop, *place);
                Ok(())
            }
        }
    }

    /// `if`, its tests with their blocks in order, and the last `else`.
    #[cycle(walk)]
    fn if_block(&mut self, statement: &Stmt) -> Result<(), AllocError>
        requires { IsIf statement.now }
        ensures { OnOk result (self.new ≡ walked (stmt_marks statement.now) self.old) }
    {
        let Stmt::If(arms, last) = statement else {
            unreachable!();
        };
        self.arms(arms.as_slice())?;
        match last {
            Some(last) => self.block(last.as_slice()),
            None => Ok(()),
        }
    }

    /// `for (x in e)` and `for (def x : e)`
    #[cycle(walk)]
    fn for_each(&mut self, statement: &Stmt) -> Result<(), AllocError>
        requires { IsForEach statement.now }
        ensures { OnOk result (self.new ≡ walked (stmt_marks statement.now) self.old) }
    {
        let Stmt::ForEach(name, elements, body) = statement else {
            unreachable!();
        };
        self.open(self.inner.in_loop)?;
        self.declare(name)?;
        self.expression(elements)?;
        self.loop_body(body.as_slice())?;
        self.close();
        Ok(())
    }

    /// `for (def x = e; test; b)`
    #[cycle(walk)]
    fn for_declared(&mut self, statement: &Stmt) -> Result<(), AllocError>
        requires { IsForDeclared statement.now }
        ensures { OnOk result (self.new ≡ walked (stmt_marks statement.now) self.old) }
    {
        let Stmt::ForDeclared(name, value, test, step, body) = statement else {
            unreachable!();
        };
        self.open(self.inner.in_loop)?;
        self.declare(name)?;
        self.expression(value)?;
        self.expression(test)?;
        self.assignment(step.get())?;
        self.loop_body(body.as_slice())?;
        self.close();
        Ok(())
    }

    /// `for (a; test; b)`
    #[cycle(walk)]
    fn for_steps(&mut self, statement: &Stmt) -> Result<(), AllocError>
        requires { IsForSteps statement.now }
        ensures { OnOk result (self.new ≡ walked (stmt_marks statement.now) self.old) }
    {
        let Stmt::ForSteps(first, test, step, body) = statement else {
            unreachable!();
        };
        self.open(self.inner.in_loop)?;
        self.assignment(first.get())?;
        self.expression(test)?;
        self.assignment(step.get())?;
        self.loop_body(body.as_slice())?;
        self.close();
        Ok(())
    }

    #[cycle(walk)]
    fn assignment(&mut self, assignment: &Assignment) -> Result<(), AllocError>
        ensures { OnOk result (self.new ≡ walked (assignment_marks assignment.now) self.old) }
    {
        match assignment {
            Assignment::Write(target, _, value) => {
                self.target(target)?;
                self.expression(value)
            }
            Assignment::Increment(target) | Assignment::Decrement(target) => self.target(target),
        }
    }

    /// `try`, its catches in order, and `finally`.
    #[cycle(walk)]
    fn try_block(&mut self, statement: &Stmt) -> Result<(), AllocError>
        requires { IsTry statement.now }
        ensures { OnOk result (self.new ≡ walked (stmt_marks statement.now) self.old) }
    {
        let Stmt::Try(body, catches, last) = statement else {
            unreachable!();
        };
        self.block(body.as_slice())?;
        self.catches(catches.as_slice())?;
        match last {
            Some(last) => self.block(last.as_slice()),
            None => Ok(()),
        }
    }

    /// The tests of an `if` with their blocks.
    #[cycle(walk)]
    fn arms(&mut self, arms: &[Arm]) -> Result<(), AllocError>
        ensures { OnOk result (self.new ≡ walked (all (map arm_marks arms.now)) self.old) }
    {
        for arm in arms {
            self.expression(&arm.test)?;
            self.block(arm.body.as_slice())?;
        }
        Ok(())
    }

    /// Catches: the name of each stands in the scope of its block.
    #[cycle(walk)]
    fn catches(&mut self, catches: &[Catch]) -> Result<(), AllocError>
        ensures { OnOk result (self.new ≡ walked (all (map catch_marks catches.now)) self.old) }
    {
        for catch in catches {
            self.open(self.inner.in_loop)?;
            self.declare(&catch.name)?;
            self.statements(catch.body.as_slice())?;
            self.close();
        }
        Ok(())
    }

    #[cycle(walk)]
    fn target(&mut self, target: &Target) -> Result<(), AllocError>
        ensures { OnOk result (self.new ≡ walked (target_marks target.now) self.old) }
    {
        match target {
            Target::ToName(_) => Ok(()),
            Target::ToProperty(of, _) => self.expression(of),
            Target::ToIndex(of, index) => {
                self.expression(of)?;
                self.expression(index)
            }
        }
    }

    /// A value that may be absent.
    #[cycle(walk)]
    fn value(&mut self, value: &Option<Expr>) -> Result<(), AllocError>
        ensures { OnOk result (self.new ≡ walked (if_any (option_map expr_marks value.now)) self.old) }
    {
        match value {
            Some(value) => self.expression(value),
            None => Ok(()),
        }
    }

    #[cycle(walk)]
    fn expressions(&mut self, expressions: &[Expr]) -> Result<(), AllocError>
        ensures { OnOk result (self.new ≡ walked (all (map expr_marks expressions.now)) self.old) }
    {
        for expression in expressions {
            self.expression(expression)?;
        }
        Ok(())
    }

    #[cycle(walk)]
    fn expression(&mut self, expression: &Expr) -> Result<(), AllocError>
        ensures { OnOk result (self.new ≡ walked (expr_marks expression.now) self.old) }
    {
        match expression {
            Expr::GString(parts) => self.parts(parts.as_slice()),
            Expr::Call(_, arguments) => self.arguments(arguments),
            Expr::Group(inner) => self.expression(inner.get()),
            Expr::List(elements) => self.expressions(elements.as_slice()),
            Expr::Map(entries) => self.entries(entries.as_slice()),
            Expr::Closure(Some(parameters), body) => {
                self.callable(parameters.as_slice(), body.as_slice())
            }
            Expr::Closure(None, body) => self.closure_with_it(body.as_slice()),
            Expr::New(_, message) => self.message(message),
            Expr::Suffixed(primary, suffixes) => {
                self.expression(primary.get())?;
                self.suffixes(suffixes.as_slice())
            }
            Expr::Prefixed(_, operand) => self.expression(operand.get()),
            Expr::Joined(first, operands) => {
                self.expression(first.get())?;
                self.operands(operands.as_slice())
            }
            Expr::And(operands) | Expr::Or(operands) => self.expressions(operands.as_slice()),
            Expr::Chosen(choices, last) => {
                self.choices(choices.as_slice())?;
                self.expression(last.get())
            }
            Expr::Number(_)
            | Expr::Literal(_)
            | Expr::True
            | Expr::False
            | Expr::Null
            | Expr::Variable(_) => Ok(()),
        }
    }

    /// The message of a new throwable, where it has one.
    #[cycle(walk)]
    fn message(&mut self, message: &Option<Boxed<Expr>>) -> Result<(), AllocError>
        ensures { OnOk result (self.new ≡ walked (if_any (option_map expr_marks message.now)) self.old) }
    {
        match message {
            Some(message) => self.expression(message.get()),
            None => Ok(()),
        }
    }

    #[cycle(walk)]
    fn parts(&mut self, parts: &[Part]) -> Result<(), AllocError>
        ensures { OnOk result (self.new ≡ walked (all (map part_marks parts.now)) self.old) }
    {
        for part in parts {
            self.part(part)?;
        }
        Ok(())
    }

    /// Plain text, or an expression, in a text with expressions.
    #[cycle(walk)]
    fn part(&mut self, part: &Part) -> Result<(), AllocError>
        ensures { OnOk result (self.new ≡ walked (part_marks part.now) self.old) }
    {
        match part {
            Part::Plain(_) => Ok(()),
            Part::Inner(inner) => self.expression(inner),
        }
    }

    #[cycle(walk)]
    fn arguments(&mut self, arguments: &Arguments) -> Result<(), AllocError>
        ensures { OnOk result (self.new ≡ walked (arguments_marks arguments.now) self.old) }
    {
        self.entries(arguments.named.as_slice())?;
        self.expressions(arguments.ordered.as_slice())
    }

    #[cycle(walk)]
    fn entries(&mut self, entries: &[Entry]) -> Result<(), AllocError>
        ensures { OnOk result (self.new ≡ walked (all (map entry_marks entries.now)) self.old) }
    {
        for entry in entries {
            self.entry(entry)?;
        }
        Ok(())
    }

    #[cycle(walk)]
    fn entry(&mut self, entry: &Entry) -> Result<(), AllocError>
        ensures { OnOk result (self.new ≡ walked (entry_marks entry.now) self.old) }
    {
        match entry {
            Entry::Named(_, value) | Entry::Numbered(_, value) => self.expression(value),
            Entry::Computed(key, value) => {
                self.expression(key)?;
                self.expression(value)
            }
        }
    }

    #[cycle(walk)]
    fn suffixes(&mut self, suffixes: &[Suffix]) -> Result<(), AllocError>
        ensures { OnOk result (self.new ≡ walked (all (map suffix_marks suffixes.now)) self.old) }
    {
        for suffix in suffixes {
            self.suffix(suffix)?;
        }
        Ok(())
    }

    #[cycle(walk)]
    fn suffix(&mut self, suffix: &Suffix) -> Result<(), AllocError>
        ensures { OnOk result (self.new ≡ walked (suffix_marks suffix.now) self.old) }
    {
        match suffix {
            Suffix::Property(_, _) => Ok(()),
            Suffix::Method(_, _, arguments) => self.arguments(arguments),
            Suffix::Index(index) => self.expression(index),
        }
    }

    /// The operands behind operators.
    #[cycle(walk)]
    fn operands(&mut self, operands: &[Operand]) -> Result<(), AllocError>
        ensures { OnOk result (self.new ≡ walked (all (map operand_marks operands.now)) self.old) }
    {
        for operand in operands {
            self.expression(&operand.value)?;
        }
        Ok(())
    }

    #[cycle(walk)]
    fn choices(&mut self, choices: &[Choice]) -> Result<(), AllocError>
        ensures { OnOk result (self.new ≡ walked (all (map choice_marks choices.now)) self.old) }
    {
        for choice in choices {
            self.choice(choice)?;
        }
        Ok(())
    }

    #[cycle(walk)]
    fn choice(&mut self, choice: &Choice) -> Result<(), AllocError>
        ensures { OnOk result (self.new ≡ walked (choice_marks choice.now) self.old) }
    {
        match choice {
            Choice::IfTrue(test, value) => {
                self.expression(test)?;
                self.expression(value)
            }
            Choice::IfSet(value) => self.expression(value),
        }
    }
}
