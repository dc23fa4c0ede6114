// Templates: they are parsed, and return the types that they make.
use crate::arguments::Templates;
use crate::lines::Lines;
use std::alloc::Global;
use std::io::Write;
use wgsl_types::syntax::{AccessMode, SampledType};
use wgsl_types::tplt::{
    ArrayTemplate, AtomicTemplate, BindingArrayTemplate, BitcastTemplate, MatTemplate, PtrTemplate,
    TextureTemplate, TpltParam, VecTemplate,
};
use wgsl_types::{Error, Fail, Type};

pub fn print_templates<W: Write>(lines: &mut Lines<W>, templates: &Templates) {
    print_arrays(lines, &templates.array);
    print_scalars(lines, &templates.scalar);
    print_pointers(lines, templates);
    let alloc = lines.alloc;
    lines.value(
        "BitcastTemplate::inner_ty",
        bitcast_inner(alloc, &templates.element),
    );
    lines.value(
        "TextureTemplate::parse",
        texture_channel(alloc, &templates.element),
    );
}

fn print_arrays<W: Write>(lines: &mut Lines<W>, tplt: &[TpltParam]) {
    let alloc = lines.alloc;
    lines.value("ArrayTemplate::ty", array_type(alloc, tplt));
    lines.value("ArrayTemplate::inner_ty", array_inner(alloc, tplt));
    lines.value("BindingArrayTemplate::ty", binding_array_type(alloc, tplt));
    lines.value(
        "BindingArrayTemplate::inner_ty",
        binding_array_inner(alloc, tplt),
    );
}

fn print_scalars<W: Write>(lines: &mut Lines<W>, tplt: &[TpltParam]) {
    let alloc = lines.alloc;
    lines.value("VecTemplate::ty", vector_type(alloc, tplt));
    lines.value("MatTemplate::ty", matrix_type(alloc, tplt));
    lines.value("AtomicTemplate::ty", atomic_type(alloc, tplt));
}

fn print_pointers<W: Write>(lines: &mut Lines<W>, templates: &Templates) {
    let alloc = lines.alloc;
    let Templates {
        pointer,
        push_constant,
        ..
    } = templates;
    lines.value("PtrTemplate::parse", pointer_access(alloc, pointer));
    lines.value("PtrTemplate::ty", pointer_type(alloc, pointer));
    lines.value(
        "PtrTemplate::parse, refused",
        pointer_access(alloc, push_constant),
    );
}

fn array_type(alloc: Global, tplt: &[TpltParam]) -> Result<Type, Fail<Error>> {
    let template = ArrayTemplate::parse(alloc, tplt)?;
    let ty = template.ty(alloc);
    drop(template);
    Ok(ty?)
}

fn array_inner(alloc: Global, tplt: &[TpltParam]) -> Result<Type, Fail<Error>> {
    let template = ArrayTemplate::parse(alloc, tplt)?;
    let ty = template.inner_ty(alloc);
    drop(template);
    Ok(ty?)
}

fn binding_array_type(alloc: Global, tplt: &[TpltParam]) -> Result<Type, Fail<Error>> {
    let template = BindingArrayTemplate::parse(alloc, tplt)?;
    let ty = template.ty(alloc);
    drop(template);
    Ok(ty?)
}

fn binding_array_inner(alloc: Global, tplt: &[TpltParam]) -> Result<Type, Fail<Error>> {
    let template = BindingArrayTemplate::parse(alloc, tplt)?;
    let ty = template.inner_ty(alloc);
    drop(template);
    Ok(ty?)
}

fn vector_type(alloc: Global, tplt: &[TpltParam]) -> Result<Type, Fail<Error>> {
    let template = VecTemplate::parse(alloc, tplt)?;
    let ty = template.ty(alloc, 3);
    drop(template);
    Ok(ty?)
}

fn matrix_type(alloc: Global, tplt: &[TpltParam]) -> Result<Type, Fail<Error>> {
    let template = MatTemplate::parse(alloc, tplt)?;
    let ty = template.ty(alloc, 2, 3);
    drop(template);
    Ok(ty?)
}

fn atomic_type(alloc: Global, tplt: &[TpltParam]) -> Result<Type, Fail<Error>> {
    let template = AtomicTemplate::parse(alloc, tplt)?;
    let ty = template.ty(alloc);
    drop(template);
    Ok(ty?)
}

fn pointer_access(alloc: Global, tplt: &[TpltParam]) -> Result<AccessMode, Fail<Error>> {
    let template = PtrTemplate::parse(alloc, tplt)?;
    let access = template.access;
    drop(template);
    Ok(access)
}

fn pointer_type(alloc: Global, tplt: &[TpltParam]) -> Result<Type, Fail<Error>> {
    let template = PtrTemplate::parse(alloc, tplt)?;
    let ty = template.ty(alloc);
    drop(template);
    Ok(ty?)
}

fn bitcast_inner(alloc: Global, tplt: &[TpltParam]) -> Result<Type, Fail<Error>> {
    let template = BitcastTemplate::parse(alloc, tplt)?;
    let ty = template.inner_ty(alloc);
    drop(template);
    Ok(ty?)
}

/// The type of the channels of the `texture_2d` of this template.
fn texture_channel(alloc: Global, tplt: &[TpltParam]) -> Result<SampledType, Fail<Error>> {
    let template = TextureTemplate::parse(alloc, "texture_2d", tplt)?;
    Ok(template.ty().channel_type())
}
