//! The walk through a tree that makes its table. Each function adds one part of the tree to the table, with all nodes
//! within, as the next parts of the node `of`.

ghost use Rattle.std.specs.Prelude.{◌≡◌, ◌<◌, ◌^◌, [], ◌∷◌, ◌++◌, length, map, vec_len, OnOk, IfOk};
ghost use Rattle.std.specs.Option.{option_map};
ghost use Rattle.model_syntax.specs.Nodes.{node, nodes};
ghost use Rattle.model_syntax.specs.TreeNodes.{arguments_nodes, arm_node, assignment_node, block, block_if_any, catch_node, choice_node, entry_node, expr_node, finally_if_any, function_node, heads_of, if_any, names_of, operand_node, part_node, prefix_node, stmt_node, suffix_node, target_node, top_node, tree_node};
ghost use Rattle.model_syntax.specs.declared.node.NodeForm.TheVariants as forms;
ghost use Rattle.model_run.specs.Terms.{term};
ghost use Rattle.cps_code.specs.Rows.{rows_of};
ghost use Rattle.cps_code.specs.Walk.{added, added_all, opened};

use crate::row::Row;
use crate::table::Table;
use model_syntax::{
    Arguments, Arm, Assignment, Catch, Choice, Declared, Entry, Expr, Function, NodeForm, Operand,
    Part, Prefix, Stmt, Suffix, Target, Top, Tree,
};
use model_text::Texts;
use sqlite_items::{Boxed, Items};
use std::alloc::{AllocError, Global};

/// The table of a tree. `AllocError` where the memory was refused, or there are too many nodes.
pub(crate) fn rows_of_tree(alloc: Global, tree: &Tree) -> Result<Vec<Row>, AllocError>
    ensures rows { IfOk result (λ rows. rows.items ≡ rows_of (term 0 (tree_node tree.now))) }
    ensures few { IfOk result (λ rows. vec_len rows < 2 ^ 32) }
{
    let mut table = Table::new(alloc, NodeForm::Script)?;
    table.tops(tree.tops.as_slice())?;
    Ok(table.into_rows())
}

/// The names that are declared.
fn names(alloc: Global, declared: &[Declared]) -> Result<Texts, AllocError>
    ensures { IfOk result (λ names. names ≡ names_of declared.now) }
{
    let mut names = Texts::new(alloc);
    for one in declared {
        names.push(one.name.clone()?)?;
    }
    Ok(names)
}

/// The names of a closure's heads, where it has heads.
fn heads(alloc: Global, declared: &Option<Items<Declared>>) -> Result<Option<Texts>, AllocError>
    ensures { IfOk result (λ heads. heads ≡ heads_of declared.now) }
{
    match declared {
        None => Ok(None),
        Some(declared) => Ok(Some(names(alloc, declared.as_slice())?)),
    }
}

/// `AllocError` comes where the memory was refused, or there are too many nodes.
impl Table {
    /// The functions and statements of a script.
    fn tops(&mut self, tops: &[Top]) -> Result<(), AllocError>
        ensures { OnOk result (self.new ≡ added_all 0 (nodes (map top_node tops.now)) self.old) }
    {
        for top in tops {
            self.top(top)?;
        }
        Ok(())
    }

    fn top(&mut self, top: &Top) -> Result<(), AllocError>
        ensures { OnOk result (self.new ≡ added 0 (top_node top.now) self.old) }
    {
        match top {
            Top::Function(function) => self.function(function),
            Top::Statement(_, statement) => self.statement(0, statement),
        }
    }

    fn function(&mut self, function: &Function) -> Result<(), AllocError>
        ensures { OnOk result (self.new ≡ added 0 (function_node function.now) self.old) }
    {
        let parameters = names(self.alloc(), function.parameters.as_slice())?;
        let form = NodeForm::Function(function.name.name.clone()?, parameters);
        self.with_block(0, form, function.body.as_slice())
    }

    /// A node without parts.
    fn leaf(&mut self, of: u32, form: NodeForm) -> Result<(), AllocError>
        ensures { OnOk result (self.new ≡ added of (node form (nodes [])) self.old) }
    {
        self.part(of, form)?;
        Ok(())
    }

    /// A block.
    #[cycle(walk)]
    fn block(&mut self, of: u32, statements: &[Stmt]) -> Result<(), AllocError>
        ensures { OnOk result (self.new ≡ added of (block (map stmt_node statements.now)) self.old) }
    {
        let number = self.part(of, NodeForm::Block)?;
        self.statements(number, statements)
    }

    /// A node whose one part is a block.
    #[cycle(walk)]
    fn with_block(&mut self, of: u32, form: NodeForm, statements: &[Stmt]) -> Result<(), AllocError>
        ensures { OnOk result (self.new ≡ added of (node form (nodes (block (map stmt_node statements.now) ∷ []))) self.old) }
    {
        let number = self.part(of, form)?;
        self.block(number, statements)
    }

    /// A node with the first of its parts, an expression, and its number.
    #[cycle(walk)]
    fn with_first(&mut self, of: u32, form: NodeForm, first: &Expr) -> Result<u32, AllocError>
        ensures number { IfOk result (λ number. number ≡ length self.old) }
        ensures added { OnOk result (self.new ≡ added (length self.old) (expr_node first.now) (opened of form self.old)) }
    {
        let number = self.part(of, form)?;
        self.expression(number, first)?;
        Ok(number)
    }

    /// A node whose one part is an expression.
    #[cycle(walk)]
    fn with_one(&mut self, of: u32, form: NodeForm, value: &Expr) -> Result<(), AllocError>
        ensures { OnOk result (self.new ≡ added of (node form (nodes (expr_node value.now ∷ []))) self.old) }
    {
        let number = self.part(of, form)?;
        self.expression(number, value)
    }

    /// A node whose one part is an expression, which may be absent.
    #[cycle(walk)]
    fn with_any(&mut self, of: u32, form: NodeForm, value: &Option<Expr>) -> Result<(), AllocError>
        ensures { OnOk result (self.new ≡ added of (node form (nodes (if_any (option_map expr_node value.now)))) self.old) }
    {
        match value {
            Some(value) => self.with_one(of, form, value),
            None => self.leaf(of, form),
        }
    }

    /// A node whose parts are expressions.
    #[cycle(walk)]
    fn with_all(&mut self, of: u32, form: NodeForm, values: &[Expr]) -> Result<(), AllocError>
        ensures { OnOk result (self.new ≡ added of (node form (nodes (map expr_node values.now))) self.old) }
    {
        let number = self.part(of, form)?;
        self.expressions(number, values)
    }

    /// A node whose one part is a target.
    #[cycle(walk)]
    fn with_target(&mut self, of: u32, form: NodeForm, target: &Target) -> Result<(), AllocError>
        ensures { OnOk result (self.new ≡ added of (node form (nodes (target_node target.now ∷ []))) self.old) }
    {
        let number = self.part(of, form)?;
        self.target(number, target)
    }

    /// A node whose parts are arguments.
    #[cycle(walk)]
    fn with_arguments(
        &mut self,
        of: u32,
        form: NodeForm,
        arguments: &Arguments,
    ) -> Result<(), AllocError>
        ensures { OnOk result (self.new ≡ added of (node form (nodes (arguments_nodes arguments.now))) self.old) }
    {
        let number = self.part(of, form)?;
        self.entries(number, arguments.named.as_slice())?;
        self.expressions(number, arguments.ordered.as_slice())
    }

    #[cycle(walk)]
    fn statements(&mut self, of: u32, statements: &[Stmt]) -> Result<(), AllocError>
        ensures { OnOk result (self.new ≡ added_all of (nodes (map stmt_node statements.now)) self.old) }
    {
        for statement in statements {
            self.statement(of, statement)?;
        }
        Ok(())
    }

    #[cycle(walk)]
    fn statement(&mut self, of: u32, statement: &Stmt) -> Result<(), AllocError>
        ensures { OnOk result (self.new ≡ added of (stmt_node statement.now) self.old) }
    {
        match statement {
            Stmt::If(arms, last) => {
                let number = self.with_arms(of, arms.as_slice())?;
                match last {
                    Some(last) => self.block(number, last.as_slice()),
                    None => Ok(()),
                }
            }
            Stmt::While(test, body) => {
                let number = self.with_first(of, NodeForm::While, test)?;
                self.block(number, body.as_slice())
            }
            Stmt::ForEach(name, over, body) => {
                let form = NodeForm::ForEach(name.name.clone()?);
                let number = self.with_first(of, form, over)?;
                self.block(number, body.as_slice())
            }
            Stmt::ForDeclared(name, value, test, step, body) => {
                let number = self.for_declared(of, name, value)?;
                self.expression(number, test)?;
                self.assignment(number, step.get())?;
                self.block(number, body.as_slice())
            }
            Stmt::ForSteps(first, test, step, body) => {
                let number = self.for_steps(of, first.get())?;
                self.expression(number, test)?;
                self.assignment(number, step.get())?;
                self.block(number, body.as_slice())
            }
            Stmt::Try(body, catches, last) => {
                let number = self.with_tried(of, body.as_slice())?;
                self.catches(number, catches.as_slice())?;
                match last {
                    Some(last) => self.with_block(number, NodeForm::Finally, last.as_slice()),
                    None => Ok(()),
                }
            }
            Stmt::Declare(name, value) => {
                self.with_any(of, NodeForm::Declare(name.name.clone()?), value)
            }
            Stmt::Assign(assignment) => self.assignment(of, assignment),
            Stmt::Evaluate(value) => self.with_one(of, NodeForm::Evaluate, value),
            Stmt::Return(value) => self.with_any(of, NodeForm::Return, value),
            Stmt::Break(_) => self.leaf(of, NodeForm::Break),
            Stmt::Continue(_) => self.leaf(of, NodeForm::Continue),
            Stmt::Throw(value) => self.with_one(of, NodeForm::Throw, value),
        }
    }

    /// An `if` with its tests and their blocks, and its number.
    #[cycle(walk)]
    fn with_arms(&mut self, of: u32, arms: &[Arm]) -> Result<u32, AllocError>
        ensures number { IfOk result (λ number. number ≡ length self.old) }
        ensures added { OnOk result (self.new ≡ added_all (length self.old) (nodes (map arm_node arms.now)) (opened of forms.If self.old)) }
    {
        let number = self.part(of, NodeForm::If)?;
        for arm in arms {
            let arm_number = self.with_first(number, NodeForm::Arm, &arm.test)?;
            self.block(arm_number, arm.body.as_slice())?;
        }
        Ok(number)
    }

    /// A `for` with steps whose first part is a declaration, with this part, and its number.
    #[cycle(walk)]
    fn for_declared(&mut self, of: u32, name: &Declared, value: &Expr) -> Result<u32, AllocError>
        ensures number { IfOk result (λ number. number ≡ length self.old) }
        ensures added { OnOk result (self.new ≡ added (length self.old) (node (forms.Declare name.now.name) (nodes (expr_node value.now ∷ []))) (opened of forms.ForSteps self.old)) }
    {
        let number = self.part(of, NodeForm::ForSteps)?;
        self.with_one(number, NodeForm::Declare(name.name.clone()?), value)?;
        Ok(number)
    }

    /// A `for` with steps whose first part is an assignment, with this part, and its number.
    #[cycle(walk)]
    fn for_steps(&mut self, of: u32, first: &Assignment) -> Result<u32, AllocError>
        ensures number { IfOk result (λ number. number ≡ length self.old) }
        ensures added { OnOk result (self.new ≡ added (length self.old) (assignment_node first.now) (opened of forms.ForSteps self.old)) }
    {
        let number = self.part(of, NodeForm::ForSteps)?;
        self.assignment(number, first)?;
        Ok(number)
    }

    /// A `try` with its block, and its number.
    #[cycle(walk)]
    fn with_tried(&mut self, of: u32, body: &[Stmt]) -> Result<u32, AllocError>
        ensures number { IfOk result (λ number. number ≡ length self.old) }
        ensures added { OnOk result (self.new ≡ added (length self.old) (block (map stmt_node body.now)) (opened of forms.Try self.old)) }
    {
        let number = self.part(of, NodeForm::Try)?;
        self.block(number, body)?;
        Ok(number)
    }

    #[cycle(walk)]
    fn assignment(&mut self, of: u32, assignment: &Assignment) -> Result<(), AllocError>
        ensures { OnOk result (self.new ≡ added of (assignment_node assignment.now) self.old) }
    {
        match assignment {
            Assignment::Write(target, sign, value) => {
                let number = self.part(of, NodeForm::Assign(*sign))?;
                self.target(number, target)?;
                self.expression(number, value)
            }
            Assignment::Increment(target) => self.with_target(of, NodeForm::Increment, target),
            Assignment::Decrement(target) => self.with_target(of, NodeForm::Decrement, target),
        }
    }

    #[cycle(walk)]
    fn target(&mut self, of: u32, target: &Target) -> Result<(), AllocError>
        ensures { OnOk result (self.new ≡ added of (target_node target.now) self.old) }
    {
        match target {
            Target::ToName(name) => self.leaf(of, NodeForm::ToName(name.clone()?)),
            Target::ToProperty(on, name) => {
                self.with_one(of, NodeForm::ToProperty(name.clone()?), on)
            }
            Target::ToIndex(on, index) => {
                let number = self.with_first(of, NodeForm::ToIndex, on)?;
                self.expression(number, index)
            }
        }
    }

    #[cycle(walk)]
    fn catches(&mut self, of: u32, catches: &[Catch]) -> Result<(), AllocError>
        ensures { OnOk result (self.new ≡ added_all of (nodes (map catch_node catches.now)) self.old) }
    {
        for catch in catches {
            let form = NodeForm::Catch(catch.caught, catch.name.name.clone()?);
            self.with_block(of, form, catch.body.as_slice())?;
        }
        Ok(())
    }

    #[cycle(walk)]
    fn expressions(&mut self, of: u32, expressions: &[Expr]) -> Result<(), AllocError>
        ensures { OnOk result (self.new ≡ added_all of (nodes (map expr_node expressions.now)) self.old) }
    {
        for expression in expressions {
            self.expression(of, expression)?;
        }
        Ok(())
    }

    #[cycle(walk)]
    fn expression(&mut self, of: u32, expression: &Expr) -> Result<(), AllocError>
        ensures { OnOk result (self.new ≡ added of (expr_node expression.now) self.old) }
    {
        match expression {
            Expr::Number(value) => self.leaf(of, NodeForm::Number(*value)),
            Expr::Literal(text) => self.leaf(of, NodeForm::Literal(text.clone()?)),
            Expr::GString(parts) => self.gstring(of, parts.as_slice()),
            Expr::True => self.leaf(of, NodeForm::True),
            Expr::False => self.leaf(of, NodeForm::False),
            Expr::Null => self.leaf(of, NodeForm::Null),
            Expr::Variable(name) => self.leaf(of, NodeForm::Variable(name.clone()?)),
            Expr::Call(name, arguments) => {
                self.with_arguments(of, NodeForm::Call(name.clone()?), arguments)
            }
            Expr::Group(inner) => self.with_one(of, NodeForm::Group, inner.get()),
            Expr::List(elements) => self.with_all(of, NodeForm::List, elements.as_slice()),
            Expr::Map(entries) => self.map(of, entries.as_slice()),
            Expr::Closure(parameters, body) => {
                let form = NodeForm::Closure(heads(self.alloc(), parameters)?);
                self.with_block(of, form, body.as_slice())
            }
            Expr::New(class, message) => self.new_throwable(of, NodeForm::New(*class), message),
            Expr::Suffixed(primary, suffixes) => {
                let number = self.with_first(of, NodeForm::Suffixed, primary.get())?;
                self.suffixes(number, suffixes.as_slice())
            }
            Expr::Prefixed(signs, operand) => { self.prefixed(of, signs.as_slice(), operand.get()) }
            Expr::Joined(first, operands) => {
                let number = self.with_first(of, NodeForm::Joined, first.get())?;
                self.operands(number, operands.as_slice())
            }
            Expr::And(operands) => self.with_all(of, NodeForm::And, operands.as_slice()),
            Expr::Or(operands) => self.with_all(of, NodeForm::Or, operands.as_slice()),
            Expr::Chosen(choices, last) => {
                let number = self.with_choices(of, choices.as_slice())?;
                self.expression(number, last.get())
            }
        }
    }

    /// `new`, with a message where there is one.
    #[cycle(walk)]
    fn new_throwable(
        &mut self,
        of: u32,
        form: NodeForm,
        message: &Option<Boxed<Expr>>,
    ) -> Result<(), AllocError>
        ensures { OnOk result (self.new ≡ added of (node form (nodes (if_any (option_map expr_node message.now)))) self.old) }
    {
        match message {
            Some(message) => self.with_one(of, form, message.get()),
            None => self.leaf(of, form),
        }
    }

    /// A text with expressions.
    #[cycle(walk)]
    fn gstring(&mut self, of: u32, parts: &[Part]) -> Result<(), AllocError>
        ensures { OnOk result (self.new ≡ added of (node forms.GString (nodes (map part_node parts.now))) self.old) }
    {
        let number = self.part(of, NodeForm::GString)?;
        for part in parts {
            self.text_part(number, part)?;
        }
        Ok(())
    }

    /// Plain text, or an expression, in a text with expressions.
    #[cycle(walk)]
    fn text_part(&mut self, of: u32, part: &Part) -> Result<(), AllocError>
        ensures { OnOk result (self.new ≡ added of (part_node part.now) self.old) }
    {
        match part {
            Part::Plain(text) => self.leaf(of, NodeForm::PlainPart(text.clone()?)),
            Part::Inner(inner) => self.expression(of, inner),
        }
    }

    #[cycle(walk)]
    fn map(&mut self, of: u32, entries: &[Entry]) -> Result<(), AllocError>
        ensures { OnOk result (self.new ≡ added of (node forms.Map (nodes (map entry_node entries.now))) self.old) }
    {
        let number = self.part(of, NodeForm::Map)?;
        self.entries(number, entries)
    }

    #[cycle(walk)]
    fn entries(&mut self, of: u32, entries: &[Entry]) -> Result<(), AllocError>
        ensures { OnOk result (self.new ≡ added_all of (nodes (map entry_node entries.now)) self.old) }
    {
        for entry in entries {
            self.entry(of, entry)?;
        }
        Ok(())
    }

    #[cycle(walk)]
    fn entry(&mut self, of: u32, entry: &Entry) -> Result<(), AllocError>
        ensures { OnOk result (self.new ≡ added of (entry_node entry.now) self.old) }
    {
        match entry {
            Entry::Named(key, value) => {
                self.with_one(of, NodeForm::NamedEntry(key.clone()?), value)
            }
            Entry::Numbered(key, value) => {
                self.with_one(of, NodeForm::NumberedEntry(*key), value)
            }
            Entry::Computed(key, value) => {
                let number = self.with_first(of, NodeForm::ComputedEntry, key)?;
                self.expression(number, value)
            }
        }
    }

    #[cycle(walk)]
    fn suffixes(&mut self, of: u32, suffixes: &[Suffix]) -> Result<(), AllocError>
        ensures { OnOk result (self.new ≡ added_all of (nodes (map suffix_node suffixes.now)) self.old) }
    {
        for suffix in suffixes {
            self.suffix(of, suffix)?;
        }
        Ok(())
    }

    #[cycle(walk)]
    fn suffix(&mut self, of: u32, suffix: &Suffix) -> Result<(), AllocError>
        ensures { OnOk result (self.new ≡ added of (suffix_node suffix.now) self.old) }
    {
        match suffix {
            Suffix::Property(access, name) => {
                self.leaf(of, NodeForm::Property(*access, name.clone()?))
            }
            Suffix::Method(access, name, arguments) => {
                self.with_arguments(of, NodeForm::Method(*access, name.clone()?), arguments)
            }
            Suffix::Index(index) => self.with_one(of, NodeForm::Index, index),
        }
    }

    /// Signs before an operand.
    #[cycle(walk)]
    fn prefixed(&mut self, of: u32, signs: &[Prefix], operand: &Expr) -> Result<(), AllocError>
        ensures { OnOk result (self.new ≡ added of (node forms.Prefixed (nodes (map prefix_node signs.now ++ expr_node operand.now ∷ []))) self.old) }
    {
        let number = self.part(of, NodeForm::Prefixed)?;
        self.signs(number, signs)?;
        self.expression(number, operand)
    }

    fn signs(&mut self, of: u32, signs: &[Prefix]) -> Result<(), AllocError>
        ensures { OnOk result (self.new ≡ added_all of (nodes (map prefix_node signs.now)) self.old) }
    {
        for sign in signs {
            self.leaf(of, NodeForm::Prefix(*sign))?;
        }
        Ok(())
    }

    /// The operands behind operators.
    #[cycle(walk)]
    fn operands(&mut self, of: u32, operands: &[Operand]) -> Result<(), AllocError>
        ensures { OnOk result (self.new ≡ added_all of (nodes (map operand_node operands.now)) self.old) }
    {
        for operand in operands {
            self.with_one(of, NodeForm::Operand(operand.operator), &operand.value)?;
        }
        Ok(())
    }

    /// A choice with its tests and their values, and its number.
    #[cycle(walk)]
    fn with_choices(&mut self, of: u32, choices: &[Choice]) -> Result<u32, AllocError>
        ensures number { IfOk result (λ number. number ≡ length self.old) }
        ensures added { OnOk result (self.new ≡ added_all (length self.old) (nodes (map choice_node choices.now)) (opened of forms.Chosen self.old)) }
    {
        let number = self.part(of, NodeForm::Chosen)?;
        for choice in choices {
            self.choice(number, choice)?;
        }
        Ok(number)
    }

    #[cycle(walk)]
    fn choice(&mut self, of: u32, choice: &Choice) -> Result<(), AllocError>
        ensures { OnOk result (self.new ≡ added of (choice_node choice.now) self.old) }
    {
        match choice {
            Choice::IfTrue(test, value) => {
                let number = self.with_first(of, NodeForm::IfTrue, test)?;
                self.expression(number, value)
            }
            Choice::IfSet(value) => self.with_one(of, NodeForm::IfSet, value),
        }
    }
}
