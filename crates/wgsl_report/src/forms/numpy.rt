// Structs as dtypes of numpy.

use crate::layers::Shape;
use crate::prelude::*;

/// Writes the chosen structs, each after those inside it.
pub fn write_numpy(output: &mut String, source: Source) -> Written {
    output.push_str("import numpy\n")?;
    let names = struct_names(source.alloc, source.module, Language::Python)?;
    let writer = Writer {
        alloc: source.alloc,
        module: source.module,
        names: &names,
    };
    for index in 0..source.module.structs.len() {
        if let Some(structure) = source.chosen(index) {
            writer.write_struct(output, index, structure)?;
        }
    }
    Ok(())
}

#[derive(Clone, Copy)]
struct Writer<'a> {
    alloc: Global,
    module: &'a Module<'a>,
    names: &'a Names,
}

impl<'a> Writer<'a> {
    fn write_struct(self, output: &mut String, index: usize, structure: &Struct) -> Written {
        let name = self.names.get(index);
        write!(output, "\n{name} = numpy.dtype({{\n    'names': [")?;
        for (index, member) in structure.members.iter().enumerate() {
            let name = member.name;
            let separator = separator(index);
            write!(output, "{separator}'{name}'")?;
        }
        output.push_str("],\n    'formats': [")?;
        for (index, member) in structure.members.iter().enumerate() {
            output.push_str(separator(index))?;
            self.write_format(output, member.ty)?;
        }
        output.push_str("],\n    'offsets': [")?;
        for (index, member) in structure.members.iter().enumerate() {
            let offset = member.offset;
            let separator = separator(index);
            write!(output, "{separator}{offset}")?;
        }
        let size = structure.size;
        write!(output, "],\n    'itemsize': {size},\n}})\n")
    }

    fn write_format(self, output: &mut String, ty: MeasuredType) -> Written {
        match shape_of(self.alloc, self.module, ty)? {
            Some(shape) => output.push_str(self.format(&shape)?.as_str()),
            None => Ok(()),
        }
    }

    /// The argument of `numpy.dtype` for a type.
    fn format(self, shape: &Shape) -> Result<String, AllocError> {
        let mut base = self.base(shape.base)?;
        let mut counts = String::new(self.alloc);
        for layer in shape.layers.iter().rev() {
            if layer.padding() > 0 {
                let inner = counted(self.alloc, base.as_str(), counts.as_str())?;
                base = padded(self.alloc, inner.as_str(), layer.stride)?;
                counts = String::new(self.alloc);
            }
            let count = layer.count;
            counts = format!(in self.alloc; "{count}, {counts}")?;
        }
        counted(self.alloc, base.as_str(), counts.as_str())
    }

    fn base(self, base: Base) -> Result<String, AllocError> {
        match base {
            Base::Scalar(scalar) => {
                let name = Language::Python.scalar_name(scalar);
                format!(in self.alloc; "'{name}'")
            }
            Base::Struct(index) => String::from_str(self.alloc, self.names.get(index)),
        }
    }
}

fn separator(index: usize) -> &'static str {
    if index == 0 { "" } else { ", " }
}

/// The format of an array with these counts, or of its element if there are none.
fn counted(alloc: Global, base: &str, counts: &str) -> Result<String, AllocError> {
    match counts.strip_suffix(", ") {
        Some(counts) => format!(in alloc; "({base}, ({counts},))"),
        None => String::from_str(alloc, base),
    }
}

/// A format that is padded to the stride.
fn padded(alloc: Global, inner: &str, stride: u32) -> Result<String, AllocError> {
    format!(in alloc;
        "numpy.dtype({{'names': ['value'], 'formats': [{inner}], 'offsets': [0], 'itemsize': {stride}}})"
    )
}
