// The rules of address spaces, for the variables of a module and the structs in their types.
ghost use Rattle.std.specs.Prelude.{◌↔◌, IsTrue};
ghost use Rattle.wgsl_report.specs.spaces.Spaces.{IsAlignAttribute};
ghost use Rattle.wgsl_report.specs.Extent.{extent_of};

use crate::extent::{
    content_of, extent_of, innermost, is_runtime_sized, position_of, shape_of, stride_too_close,
};
use crate::prelude::*;

/// The state of checking the variables of a module.
#[derive(Drop)]
struct Checker<'a> {
    alloc: Global,
    module: &'a Module<'a>,
    findings: Vec<Finding<'a>>,
}

fn member_of<'a>(of: &Struct<'a>, member: &Member<'a>, place: Option<Place>) -> Subject<'a> {
    Subject {
        at: member.place,
        of: Some(of.name),
        name: member.name,
        place,
    }
}

/// The broken rules of a module, in the order of the text.
pub fn findings_of<'a>(
    alloc: Global,
    module: &'a Module<'a>,
) -> Result<Vec<Finding<'a>>, AllocError> {
    let mut checker = Checker {
        alloc,
        module,
        findings: Vec::new(alloc),
    };
    for structure in &module.structs {
        checker.check_attributes(structure)?;
    }
    for place in Place::ALL {
        checker.check_place(place)?;
    }
    let Checker { mut findings, .. } = checker;
    findings.sort_unstable_by_key(|finding| finding.subject.at);
    Ok(findings)
}

impl<'a> Checker<'a> {
    /// Checks the attribute `align` of each member. naga and Tint require in every struct that it suits the member's
    /// type.
    fn check_attributes(&mut self, structure: &Struct<'a>) -> Written {
        for member in &structure.members {
            let subject = member_of(structure, member, None);
            let align = member.ty.align.unwrap_or(1);
            if !suits_type(member) {
                self.find(subject, Trouble::Align { align })?;
            }
        }
        Ok(())
    }

    /// Checks the variables of a place, and each struct in their types once.
    fn check_place(&mut self, place: Place) -> Written {
        let module = self.module;
        let mut reached = vec![in self.alloc; false; module.structs.len()]?;
        for variable in &module.variables {
            if Place::of(variable) == place {
                self.check_variable(place, variable)?;
                self.reach(&variable.ty, &mut reached);
            }
        }
        for index in (0..module.structs.len()).rev() {
            if reached.get(index) == Some(&true) {
                self.check_struct(index, place, &mut reached)?;
            }
        }
        Ok(())
    }

    /// Marks the struct in a type.
    fn reach(&self, ty: &MeasuredType, reached: &mut [bool]) {
        let Some(inner) = innermost(&self.module.elements, ty) else {
            return;
        };
        if let TypeKind::Struct(index) = inner.kind {
            if let Some(is_reached) = reached.get_mut(index) {
                *is_reached = true;
            }
        }
    }

    fn check_variable(&mut self, place: Place, variable: &Variable<'a>) -> Written {
        let subject = Subject {
            at: variable.place,
            of: None,
            name: variable.name,
            place: Some(place),
        };
        let is_bound = variable.group.is_some() && variable.binding.is_some();
        let has_any = variable.group.is_some() || variable.binding.is_some();
        if place.is_bound() && !is_bound {
            self.find(subject, Trouble::NoBinding)?;
        } else if !place.is_bound() && has_any {
            self.find(subject, Trouble::NeedlessBinding)?;
        }
        match (place, variable.ty.align.is_some()) {
            (Place::Handle, false) => Ok(()),
            (Place::Handle, true) => self.find(subject, Trouble::NoHandle),
            (_, false) => self.find(subject, Trouble::NoData),
            (_, true) => {
                if !place.takes_runtime_sized() && is_runtime_sized(&variable.ty) {
                    self.find(subject, Trouble::RuntimeSized)?;
                }
                self.check_content(subject, place, &variable.ty)
            }
        }
    }

    fn find(&mut self, subject: Subject<'a>, trouble: Trouble) -> Written {
        self.find_where(subject, trouble, false)
    }

    fn find_where(&mut self, subject: Subject<'a>, trouble: Trouble, is_lifted: bool) -> Written {
        let finding = Finding {
            subject,
            trouble,
            is_lifted,
        };
        Ok(self.findings.push(finding)?)
    }

    fn check_struct(&mut self, index: usize, place: Place, reached: &mut [bool]) -> Written {
        let module = self.module;
        let Some(structure) = module.structs.get(index) else {
            return Ok(());
        };
        for (index, member) in structure.members.iter().enumerate() {
            let subject = member_of(structure, member, Some(place));
            let next = structure.members.get(index.saturating_add(1));
            self.check_member(subject, place, member, next.map(|next| next.offset))?;
            self.check_content(subject, place, &member.ty)?;
            self.reach(&member.ty, reached);
        }
        Ok(())
    }

    /// Checks where a member lies.
    fn check_member(
        &mut self,
        subject: Subject<'a>,
        place: Place,
        member: &Member<'a>,
        next: Option<u32>,
    ) -> Written {
        let position = position_of(member, next);
        let space = self.rules(place);
        let Some(rule) = broken_rule(space, position) else {
            return Ok(());
        };
        if rule == Rule::Align && !suits_type(member) {
            return Ok(());
        }
        let is_lifted = space == AddressSpace::Uniform && is_lifted(rule, position);
        self.find_where(subject, trouble_of(rule, space, position), is_lifted)
    }

    /// The address space whose layout rules hold for a place.
    fn rules(&self, place: Place) -> AddressSpace {
        match place {
            Place::Uniform if self.module.has_standard_uniform => AddressSpace::Storage,
            _ => place.space(),
        }
    }

    /// Checks whether an array may stand there, the strides of arrays, and the innermost type.
    fn check_content(&mut self, subject: Subject<'a>, place: Place, ty: &MeasuredType) -> Written {
        let elements = &self.module.elements;
        if !may_hold(place.space(), shape_of(ty.kind)) {
            self.find(subject, Trouble::Array)?;
        }
        if let Some(stride) = stride_too_close(self.rules(place), elements, ty) {
            self.find_where(subject, Trouble::Stride { stride }, true)?;
        }
        let Some(inner) = innermost(elements, ty) else {
            return Ok(());
        };
        let content = content_of(inner.kind);
        if may_be_innermost(place.space(), place.access(), content) {
            return Ok(());
        }
        match content {
            Content::Bool => self.find(subject, Trouble::Bool),
            Content::Atomic | Content::Other => self.find(subject, Trouble::Atomic),
        }
    }
}

/// Whether the attribute `align` of a member suits the member's type.
fn suits_type(member: &Member) -> bool
    ensures { IsTrue result ↔ IsAlignAttribute AddressSpace.Storage (extent_of member.now.ty) member.now.align_attribute }
{
    is_align_attribute(
        AddressSpace::Storage,
        extent_of(&member.ty),
        member.align_attribute,
    )
}

/// The trouble for a rule that a member breaks.
fn trouble_of(rule: Rule, space: AddressSpace, member: Position) -> Trouble {
    let align = number(required_align(space, member.extent));
    match rule {
        Rule::Offset => Trouble::Offset {
            offset: member.offset,
            align,
        },
        Rule::Behind => Trouble::Behind {
            room: number(up_to_16(member.extent.size)),
        },
        Rule::Align => Trouble::Align { align },
        Rule::Size => Trouble::Size,
    }
}

/// A number for a message. None of these numbers exceeds 32 bits.
fn number(number: u64) -> u32 {
    u32::try_from(number).unwrap_or(u32::MAX)
}
