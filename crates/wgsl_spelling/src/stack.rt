// A stack that allocates nothing for a single item.
ghost use Rattle.std.specs.Prelude.{◌≡◌, ◌++◌, ◌∷◌, [], IfOk, MatchOption};
ghost use Rattle.wgsl_spelling.specs.Stacks.{items_of};

use std::alloc::AllocError;

/// Items, of which the last lies beside the others.
#[derive(Drop)]
pub struct Stack<T> {
    pub below: Vec<T>,
    pub last: Option<T>,
}

impl<T: Copy> Stack<T> {
    /// Puts an item on top.
    pub fn push(&mut self, item: T) -> Result<(), AllocError>
        ensures { IfOk result (λ done. items_of self.new ≡ items_of self.old ++ item ∷ []) }
    {
        if let Some(last) = self.last {
            self.below.push(last)?;
        }
        self.last = Some(item);
        Ok(())
    }

    /// Takes the item on top.
    pub fn pop(&mut self) -> Option<T>
        ensures { MatchOption result (items_of self.old ≡ []) (λ item. items_of self.old ≡ items_of self.new ++ item ∷ []) }
    {
        match self.last {
            Some(item) => {
                self.last = None;
                Some(item)
            }
            None => self.below.pop(),
        }
    }
}
