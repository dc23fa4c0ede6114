// Types in layers: arrays, matrices and vectors, from the outside to a scalar or a struct.

use crate::prelude::*;

/// The type inside an array, a binding array or a pointer.
pub fn inside(module: &Module, ty: MeasuredType) -> Option<MeasuredType> {
    match ty.kind {
        TypeKind::Array(index, _)
        | TypeKind::BindingArray(index, _)
        | TypeKind::Pointer(_, index, _) => module.elements.get(index).copied(),
        _ => None,
    }
}

/// The index of the struct inside a type.
pub fn inner_struct(module: &Module, ty: MeasuredType) -> Option<usize> {
    let mut inner = ty;
    for _ in 0..ty.levels {
        match inside(module, inner) {
            Some(next) => inner = next,
            None => break,
        }
    }
    match inner.kind {
        TypeKind::Struct(index) => Some(index),
        _ => None,
    }
}

/// Elements of an array, columns of a matrix or components of a vector.
#[derive(Clone, Copy)]
pub struct Layer {
    pub count: u32,
    /// The size of each in bytes.
    pub size: u32,
    /// The stride in bytes.
    pub stride: u32,
}

impl Layer {
    /// The bytes between two of them.
    pub fn padding(self) -> u32 {
        self.stride.saturating_sub(self.size)
    }
}

/// What is inside the innermost layer.
#[derive(Clone, Copy)]
pub enum Base {
    Scalar(Scalar),
    /// The struct with this index.
    Struct(usize),
}

/// The layers of a data type, outermost first.
#[derive(Drop)]
pub struct Shape {
    pub layers: Vec<Layer>,
    pub base: Base,
}

/// The layers of a type, if it is a data type. A runtime-sized array counts as one element.
pub fn shape_of(
    alloc: Global,
    module: &Module,
    ty: MeasuredType,
) -> Result<Option<Shape>, AllocError> {
    let mut layers = Vec::new(alloc);
    let mut inner = ty;
    for _ in 0..ty.levels {
        let (Some(element), Some(layer)) = (inside(module, inner), array_layer(module, inner))
        else {
            break;
        };
        layers.push(layer)?;
        inner = element;
    }
    let base = match inner.kind {
        TypeKind::Scalar(scalar) | TypeKind::Atomic(scalar) => Base::Scalar(scalar),
        TypeKind::Vector(count, scalar) => {
            layers.push(components(count, scalar))?;
            Base::Scalar(scalar)
        }
        TypeKind::Matrix(columns, rows, scalar) => {
            let column = components(rows, scalar);
            layers.push(Layer {
                count: u32::from(columns),
                size: column.size.saturating_mul(column.count),
                stride: inner.align.unwrap_or(0),
            })?;
            layers.push(column)?;
            Base::Scalar(scalar)
        }
        TypeKind::Struct(index) => Base::Struct(index),
        _ => return Ok(None),
    };
    Ok(Some(Shape { layers, base }))
}

fn array_layer(module: &Module, ty: MeasuredType) -> Option<Layer> {
    let TypeKind::Array(_, count) = ty.kind else {
        return None;
    };
    Some(Layer {
        count: count.known().unwrap_or(1),
        size: data_size(module, inside(module, ty)?)?,
        stride: stride_of(module, ty)?,
    })
}

fn components(count: u8, scalar: Scalar) -> Layer {
    let size = scalar_size(scalar);
    Layer {
        count: u32::from(count),
        size,
        stride: size,
    }
}

/// The size of a scalar in bytes.
fn scalar_size(scalar: Scalar) -> u32 {
    match scalar {
        Scalar::F16 => 2,
        Scalar::I64 | Scalar::U64 | Scalar::F64 => 8,
        _ => 4,
    }
}
