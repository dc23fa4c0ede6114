// The order in which declarations are read: each after those that it names.

use crate::declaration::{Declaration, DeclarationKind};
use crate::fault::{Cause, Fault};
use crate::text::Text;
use std::alloc::{AllocError, Global};
use std::collections::BTreeMap;
use wgsl_reader::kind::Kind;
use wgsl_reader::mark::Mark;
use wgsl_reader::read::Event;

/// Whether a declaration has its place in the order.
#[derive(Clone, Copy, PartialEq, Eq)]
enum State {
    Unseen,
    /// The declarations that it names are being ordered.
    Open,
    Ordered,
}

/// A declaration that is being ordered, and the event from which on its names are still unvisited.
#[derive(Clone, Copy)]
struct Visit {
    index: usize,
    at: usize,
}

/// The order of declarations, and those that contain themselves.
#[derive(Drop)]
pub struct Order {
    /// The indices of the declarations, each after those that it names.
    pub sorted: Vec<usize>,
    pub circular: Vec<Circular>,
}

/// A declaration that contains itself, and the fault where it does.
#[derive(Clone, Copy)]
pub struct Circular {
    pub index: usize,
    pub fault: Fault,
}

/// The state of the depth-first search that orders the declarations of a module.
#[derive(Drop)]
struct Sorter<'a, 't> {
    text: Text<'t>,
    names: &'a BTreeMap<&'t str, usize>,
    declarations: &'a [Declaration<'t>],
    states: Vec<State>,
    open: Vec<Visit>,
    order: Order,
}

/// The order in which the declarations of a module are read.
pub fn order_of<'a, 't>(
    alloc: Global,
    text: Text<'t>,
    names: &'a BTreeMap<&'t str, usize>,
    declarations: &'a [Declaration<'t>],
) -> Result<Order, AllocError> {
    let mut sorter = Sorter {
        text,
        names,
        declarations,
        states: vec![in alloc; State::Unseen; declarations.len()]?,
        open: Vec::new(alloc),
        order: Order {
            sorted: Vec::new(alloc),
            circular: Vec::new(alloc),
        },
    };
    for index in 0..declarations.len() {
        sorter.visit(index)?;
        sorter.close_all()?;
    }
    let Sorter { order, .. } = sorter;
    Ok(order)
}

impl<'a, 't> Sorter<'a, 't> {
    fn state(&self, index: usize) -> State {
        self.states.get(index).copied().unwrap_or(State::Ordered)
    }

    fn set(&mut self, index: usize, state: State) {
        if let Some(now) = self.states.get_mut(index) {
            *now = state;
        }
    }

    /// Begins to order a declaration, unless that was done.
    fn visit(&mut self, index: usize) -> Result<(), AllocError> {
        if self.state(index) == State::Unseen {
            self.set(index, State::Open);
            self.open.push(Visit { index, at: 0 })?;
        }
        Ok(())
    }

    /// Orders the declarations that are open.
    fn close_all(&mut self) -> Result<(), AllocError> {
        for _ in 0..u64::MAX {
            let Some(visit) = self.open.pop() else {
                break;
            };
            self.go_on(visit)?;
        }
        Ok(())
    }

    /// Goes on with a declaration up to the next name that is to be ordered before it.
    fn go_on(&mut self, visit: Visit) -> Result<(), AllocError> {
        let Some(declaration) = self.declarations.get(visit.index) else {
            return Ok(());
        };
        let Some(next) = next_use(self.text, declaration, visit.at, self.names) else {
            self.set(visit.index, State::Ordered);
            self.order.sorted.push(visit.index)?;
            return Ok(());
        };
        self.open.push(Visit {
            index: visit.index,
            at: next.behind,
        })?;
        if self.state(next.index) == State::Open {
            self.order.circular.push(Circular {
                index: visit.index,
                fault: Fault {
                    at: next.place,
                    cause: Cause::ContainsItself,
                },
            })?;
            return Ok(());
        }
        self.visit(next.index)
    }
}

/// Where a declaration names another.
#[derive(Clone, Copy)]
struct Use {
    /// The one that it names.
    index: usize,
    /// Where the name stands in the text.
    place: usize,
    /// The index of the event behind the name.
    behind: usize,
}

/// The first name of another declaration in the events of a declaration from an index on.
fn next_use<'t>(
    text: Text<'t>,
    declaration: &Declaration<'t>,
    from: usize,
    names: &BTreeMap<&'t str, usize>,
) -> Option<Use> {
    if matches!(
        declaration.kind,
        DeclarationKind::Function | DeclarationKind::Variable | DeclarationKind::Override
    ) {
        return None;
    }
    let mut is_skipped = false;
    for (index, event) in declaration.rest.get(from..)?.iter().enumerate() {
        match event.mark {
            Mark::AttributeName => {
                let word = text.word(text.token_before(event.at));
                is_skipped = !matches!(word, "size" | "align");
            }
            Mark::Attribute => is_skipped = false,
            Mark::Name if !is_skipped => {
                if let Some(found) = used(text, *event, names) {
                    return Some(Use {
                        index: found,
                        place: text.token_before(event.at).at,
                        behind: from.saturating_add(index).saturating_add(1),
                    });
                }
            }
            _ => {}
        }
    }
    None
}

/// The declaration that is named, if it isn't the name of a member.
fn used<'t>(text: Text<'t>, name: Event, names: &BTreeMap<&'t str, usize>) -> Option<usize> {
    if text.token(name.at).kind == Kind::Colon {
        return None;
    }
    names.get(&text.word(text.token_before(name.at))).copied()
}
