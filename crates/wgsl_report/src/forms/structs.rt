// Structs with their padding as fields, in C and in Rust.

use crate::prelude::*;

/// The beginning of a header in C11 or C++11.
const C_HEAD: &str = "\
#pragma once
#include <assert.h>
#include <stddef.h>
#include <stdint.h>
";

/// What stands in front of a struct in Rust. Its padding is in fields, so `repr(C)` adds none.
const RUST_HEAD: &str = "\
#[allow(non_camel_case_types, non_snake_case)]
#[repr(C)]
#[derive(Clone, Copy, Debug, PartialEq)]
";

/// The type of a field: its innermost element, and in C the counts that follow the name.
#[derive(Drop)]
pub struct FieldType {
    pub base: String,
    pub counts: String,
}

/// Writes the chosen structs, each after those inside it.
pub fn write_structs(output: &mut String, source: Source, language: Language) -> Written {
    let mut writer = Writer {
        alloc: source.alloc,
        module: source.module,
        language,
        names: struct_names(source.alloc, source.module, language)?,
        padded: BTreeMap::new(source.alloc),
    };
    output.push_str(match language {
        Language::C => C_HEAD,
        _ => "",
    })?;
    for index in 0..source.module.structs.len() {
        if let Some(structure) = source.chosen(index) {
            writer.write_struct(output, index, structure)?;
        }
    }
    Ok(())
}

#[derive(Drop)]
struct Writer<'a> {
    alloc: Global,
    module: &'a Module<'a>,
    language: Language,
    names: Names,
    /// The names of the structs that are written for elements shorter than their stride, by their fields.
    padded: BTreeMap<String, String>,
}

impl<'a> Writer<'a> {
    fn write_struct(&mut self, output: &mut String, index: usize, structure: &Struct) -> Written {
        let fields = fields_of(self.alloc, self.module, structure, self.language)?;
        let mut body = String::new(self.alloc);
        for field in &fields {
            self.write_field(output, &mut body, field)?;
        }
        let name = String::from_str(self.alloc, self.names.get(index))?;
        self.write_body(output, name.as_str(), body.as_str())?;
        for field in &fields {
            self.write_offset_check(output, name.as_str(), field)?;
        }
        self.write_size_check(output, name.as_str(), structure.size)
    }

    /// Adds a field and the padding after it to a body, and writes the structs that it needs for padded elements.
    fn write_field(&mut self, output: &mut String, body: &mut String, field: &Field) -> Written {
        let Some(shape) = shape_of(self.alloc, self.module, field.ty)? else {
            return Ok(());
        };
        let mut ty = self.base(shape.base)?;
        for layer in shape.layers.iter().rev() {
            if layer.padding() > 0 {
                ty = self.padded(output, &ty, layer.padding())?;
            }
            ty = self.array(ty, layer.count)?;
        }
        self.declare(body, field.name.as_str(), &ty)?;
        match &field.padding {
            Some(padding) => self.declare_padding(body, padding.name.as_str(), padding.size),
            None => Ok(()),
        }
    }

    fn base(&self, base: Base) -> Result<FieldType, AllocError> {
        match base {
            Base::Scalar(scalar) => self.plain(self.language.scalar_name(scalar)),
            Base::Struct(index) => self.named(self.names.get(index)),
        }
    }

    fn plain(&self, name: &str) -> Result<FieldType, AllocError> {
        Ok(FieldType {
            base: String::from_str(self.alloc, name)?,
            counts: String::new(self.alloc),
        })
    }

    /// The struct with this name as a type.
    fn named(&self, name: &str) -> Result<FieldType, AllocError> {
        let mut ty = self.plain(match self.language {
            Language::C => "struct ",
            _ => "",
        })?;
        ty.base.push_str(name)?;
        Ok(ty)
    }

    fn array(&self, element: FieldType, count: u32) -> Result<FieldType, AllocError> {
        let FieldType { base, counts } = element;
        Ok(match self.language {
            Language::C => FieldType {
                base,
                counts: format!(in self.alloc; "[{count}]{counts}")?,
            },
            _ => FieldType {
                base: format!(in self.alloc; "[{base}; {count}]")?,
                counts,
            },
        })
    }

    /// The struct of an element with its padding. It is written the first time.
    fn padded(
        &mut self,
        output: &mut String,
        element: &FieldType,
        padding: u32,
    ) -> Result<FieldType, AllocError> {
        let mut body = String::new(self.alloc);
        self.declare(&mut body, "value", element)?;
        self.declare_padding(&mut body, "padding", padding)?;
        if let Some(name) = self.padded.get(body.as_str()) {
            return self.named(name.as_str());
        }
        let count = self.padded.len();
        let start = format!(in self.alloc; "Padded{count}")?;
        let name = self.names.add(self.alloc, start)?;
        self.write_body(output, name.as_str(), body.as_str())?;
        let ty = self.named(name.as_str())?;
        self.padded.insert(body, name)?;
        Ok(ty)
    }

    fn declare(&self, body: &mut String, name: &str, ty: &FieldType) -> Written {
        let FieldType { base, counts } = ty;
        match self.language {
            Language::C => write!(body, "    {base} {name}{counts};\n"),
            _ => write!(body, "    pub {name}: {base},\n"),
        }
    }

    fn declare_padding(&self, body: &mut String, name: &str, size: u32) -> Written {
        match self.language {
            Language::C => write!(body, "    uint8_t {name}[{size}];\n"),
            _ => write!(body, "    pub {name}: [u8; {size}],\n"),
        }
    }

    fn write_body(&self, output: &mut String, name: &str, body: &str) -> Written {
        if !output.is_empty() {
            output.push_str("\n")?;
        }
        match self.language {
            Language::C => write!(output, "struct {name} {{\n{body}}};\n"),
            _ => write!(output, "{RUST_HEAD}pub struct {name} {{\n{body}}}\n"),
        }
    }

    fn write_offset_check(&self, output: &mut String, name: &str, field: &Field) -> Written {
        let (field, offset) = (field.name.as_str(), field.offset);
        match self.language {
            Language::C => write!(
                output,
                "static_assert(offsetof(struct {name}, {field}) == {offset}, \"\");\n"
            ),
            _ => write!(
                output,
                "const _: () = assert!(std::mem::offset_of!({name}, {field}) == {offset});\n"
            ),
        }
    }

    fn write_size_check(&self, output: &mut String, name: &str, size: u32) -> Written {
        match self.language {
            Language::C => write!(
                output,
                "static_assert(sizeof(struct {name}) == {size}, \"\");\n"
            ),
            _ => write!(
                output,
                "const _: () = assert!(std::mem::size_of::<{name}>() == {size});\n"
            ),
        }
    }
}
