// The names of blocks (WGSL, "Declaration and Scope").
ghost use Rattle.std.specs.Prelude.{◌≡◌, IfOk};
ghost use Rattle.wgsl_module.specs.Blocks.{Begins, ClosesBlock, OpensBlock, continued, continuing_begun, continuing_ended, in_front, loop_begun, loop_ended, with_loops};
ghost use Rattle.wgsl_module.specs.Noted.{Uses};
ghost use Rattle.wgsl_module.specs.States.{source, state};

use crate::checker::Checker;
use std::alloc::AllocError;
use wgsl_reader::kind::Kind;

/// A loop whose body is read.
#[derive(Clone, Copy)]
pub struct Loop {
    /// How many blocks are open in its body, which is one of them.
    inner: usize,
    /// How many names were in scope in front of the first statement that may continue it.
    continued: Option<usize>,
    /// The names around it that a `continue` may skip.
    skipped: (usize, usize),
}

impl<'t> Checker<'t> {
    /// The word of a statement that has blocks, or what stands in front of the body of a function.
    pub fn begin(&mut self, word: Kind) -> Result<(), AllocError>
        ensures statement { IfOk result (λ u. Begins word (state self.old) (state self.new)) }
        ensures source { IfOk result (λ u. source (state self.new) ≡ source (state self.old)) }
    {
        match word {
            Kind::For => {
                self.open_block()?;
                self.begin_loop()
            }
            Kind::While | Kind::Loop => self.begin_loop(),
            Kind::Continuing => {
                self.enter_continuing();
                Ok(())
            }
            _ => Ok(()),
        }
    }

    /// Opens a block, as that of a `for`'s variable. That of a function's body has the parameters in it.
    pub fn open_block(&mut self) -> Result<(), AllocError>
        ensures block { IfOk result (λ u. OpensBlock (state self.old) (state self.new)) }
        ensures source { IfOk result (λ u. source (state self.new) ≡ source (state self.old)) }
    {
        if !self.blocks.is_empty() {
            self.expressions.locals.open()?;
        }
        self.blocks.push(self.expressions.locals.len())?;
        Ok(())
    }

    pub fn close_block(&mut self) -> Result<(), AllocError>
        ensures block { IfOk result (λ u. ClosesBlock (state self.old) (state self.new)) }
        ensures source { IfOk result (λ u. source (state self.new) ≡ source (state self.old)) }
    {
        self.blocks.pop();
        if !self.blocks.is_empty() {
            self.expressions.locals.close()?;
        }
        Ok(())
    }

    fn begin_loop(&mut self) -> Result<(), AllocError>
        ensures { IfOk result (λ u. state self.new ≡ loop_begun (state self.old)) }
    {
        self.loops.push(Loop {
            inner: self.blocks.len() + 1,
            continued: None,
            skipped: self.expressions.skipped,
        })?;
        Ok(())
    }

    /// `while`, `loop`
    pub fn end_loop(&mut self)
        ensures { state self.new ≡ loop_ended (state self.old) }
    {
        self.loops.pop();
    }

    /// `continue;`: it skips what the loop's body declares behind it.
    pub fn skip_names(&mut self) -> Result<(), AllocError>
        ensures { IfOk result (λ u. state self.new ≡ with_loops (continued (state self.old) (state self.old).loops) (state self.old)) }
    {
        if let Some(mut innermost) = self.loops.pop() {
            let in_front = self.in_front(innermost);
            innermost.continued = Some(innermost.continued.unwrap_or(in_front));
            self.loops.push(innermost)?;
        }
        Ok(())
    }

    /// How many names were in scope in front of the statement of a loop's body that is read.
    #[tactic(auto, using(crate::proofs::Blocks::turned_twice))]
    fn in_front(&self, innermost: Loop) -> usize
        ensures { result ≡ in_front innermost (state self.now) }
    {
        let all = self.expressions.locals.len();
        self.blocks.get(innermost.inner).copied().unwrap_or(all)
    }

    /// No name can be used in a `continuing` that a `continue` may skip.
    fn enter_continuing(&mut self)
        ensures { state self.new ≡ continuing_begun (state self.old) }
    {
        if let Some(innermost) = self.loops.last() {
            if let Some(from) = innermost.continued {
                self.expressions.skipped = (from, self.expressions.locals.len());
            }
        }
    }

    /// `continuing { }`
    pub fn leave_continuing(&mut self)
        ensures { state self.new ≡ continuing_ended (state self.old) }
    {
        if let Some(innermost) = self.loops.last() {
            self.expressions.skipped = innermost.skipped;
        }
    }

    /// The condition of `if`, `while`, `for` or `break if`.
    pub fn put_condition(&mut self) -> Result<(), AllocError>
        ensures { IfOk result (λ u. Uses (state self.old) (state self.new)) }
    {
        let part = self.expressions.take_part()?;
        self.expressions.is_condition(&part)?;
        self.expressions.note(part)
    }
}
