// The fields of a struct, and the padding after each.

use crate::prelude::*;

/// A member of a struct in another language.
#[derive(Drop)]
pub struct Field {
    pub name: String,
    pub ty: MeasuredType,
    pub offset: u32,
    /// The field after it that fills the bytes up to the next member, if there are any.
    pub padding: Option<Padding>,
}

/// Bytes that belong to no member.
#[derive(Drop)]
pub struct Padding {
    pub name: String,
    pub size: u32,
}

/// The names that the structs of a module have in a language.
pub fn struct_names(
    alloc: Global,
    module: &Module,
    language: Language,
) -> Result<Names, AllocError> {
    let mut names = Vec::with_capacity(alloc, module.structs.len())?;
    for structure in &module.structs {
        names.push(structure.name)?;
    }
    Names::new(alloc, language, Role::Struct, &names)
}

/// The fields of a struct in a language.
pub fn fields_of(
    alloc: Global,
    module: &Module,
    structure: &Struct,
    language: Language,
) -> Result<Vec<Field>, AllocError> {
    let mut names = field_names(alloc, structure, language)?;
    let mut fields = Vec::with_capacity(alloc, structure.members.len())?;
    for (index, member) in structure.members.iter().enumerate() {
        let end = member
            .offset
            .saturating_add(data_size(module, member.ty).unwrap_or(0));
        let gap = end_of(structure, index).saturating_sub(end);
        let padding = padding_of(alloc, &mut names, index, gap)?;
        fields.push(Field {
            name: String::from_str(alloc, names.get(index))?,
            ty: member.ty,
            offset: member.offset,
            padding,
        })?;
    }
    Ok(fields)
}

fn field_names(alloc: Global, structure: &Struct, language: Language) -> Result<Names, AllocError> {
    let mut names = Vec::with_capacity(alloc, structure.members.len())?;
    for member in &structure.members {
        names.push(member.name)?;
    }
    Names::new(alloc, language, Role::Field, &names)
}

fn padding_of(
    alloc: Global,
    names: &mut Names,
    index: usize,
    size: u32,
) -> Result<Option<Padding>, AllocError> {
    if size == 0 {
        return Ok(None);
    }
    let name = names.add(alloc, format!(in alloc; "padding_{index}")?)?;
    Ok(Some(Padding { name, size }))
}
