// Copies, built types, the trait `Ty`, conversions, candidates, constructors of structs.
use crate::arguments::{Arguments, Structs, both};
use crate::lines::Lines;
use std::alloc::{AllocError, Global};
use std::io::Write;
use wgsl_types::builtin::{binary_candidate, typecheck_struct_ctor};
use wgsl_types::conv::{
    Convert, convert, convert_all, convert_all_inner_to, convert_all_to, convert_inner,
};
use wgsl_types::syntax::BinaryOperator;
use wgsl_types::ty::{StructType, Ty, try_from_type};
use wgsl_types::typed::Typed;
use wgsl_types::{CallSignature, Type};

pub fn print_types<W: Write>(lines: &mut Lines<W>, arguments: &Arguments) {
    print_structs(lines, &arguments.structs);
    print_built(lines, &arguments.structs.structure);
    print_signatures(lines, arguments);
    print_nested(lines, &arguments.types.nested);
    print_typed(lines, &arguments.types.typed);
    print_conversions(lines, &arguments.types.vectors);
    print_checks(
        lines,
        &arguments.structs.structure,
        &arguments.types.vectors,
    );
}

fn print_structs<W: Write>(lines: &mut Lines<W>, structs: &Structs) {
    let alloc = lines.alloc;
    let Structs {
        member,
        structure,
        ty,
    } = structs;
    lines.copy("Type::clone", ty, ty.clone(alloc));
    lines.copy("StructType::clone", structure, structure.clone(alloc));
    lines.copy("StructMemberType::clone", member, member.clone(alloc));
    lines.value("Type::from_struct", struct_as_type(alloc, structure));
}

fn print_built<W: Write>(lines: &mut Lines<W>, structure: &StructType) {
    let alloc = lines.alloc;
    lines.value("Type::vector", Type::vector(alloc, 3, Type::F16));
    lines.value("Type::matrix", Type::matrix(alloc, 2, 3, Type::F16));
    lines.value("Type::array", Type::array(alloc, Some(4), Type::F16));
    lines.copy("StructType::new", structure, two_vectors(alloc));
}

/// `struct S { a: vec2<u32>, b: vec2<u32> }`
fn two_vectors(alloc: Global) -> Result<StructType, AllocError> {
    let (a, b) = both(
        Type::vector(alloc, 2, Type::U32),
        Type::vector(alloc, 2, Type::U32),
    )?;
    let members = vec![in alloc; ("a", a), ("b", b)]?;
    StructType::new(alloc, "S", members)
}

fn struct_as_type(alloc: Global, structure: &StructType) -> Result<Type, AllocError> {
    Type::from_struct(alloc, structure.clone(alloc)?)
}

fn print_signatures<W: Write>(lines: &mut Lines<W>, arguments: &Arguments) {
    let alloc = lines.alloc;
    let [parameter] = &arguments.templates.element;
    let call = &arguments.call;
    let refusal = &arguments.refusal;
    lines.copy("TpltParam::clone", parameter, parameter.clone(alloc));
    lines.copy("CallSignature::clone", call, call.clone(alloc));
    lines.value(
        "CallSignature::of_call",
        CallSignature::of_call(alloc, "vec2", None, &call.args),
    );
    lines.copy("Error::clone", refusal, refusal.clone(alloc));
}

fn print_nested<W: Write>(lines: &mut Lines<W>, nested: &Type) {
    let alloc = lines.alloc;
    lines.value("ty", nested.ty(alloc));
    lines.value("inner_ty", nested.inner_ty(alloc));
    lines.value("try_from_type", try_from_type(alloc, nested));
    lines.value("concretize", Type::concretize(nested, alloc));
    lines.option("Convert::concretize", Convert::concretize(nested, alloc));
}

fn print_typed<W: Write>(lines: &mut Lines<W>, typed: &Typed) {
    let alloc = lines.alloc;
    let element = typed.ty.inner();
    lines.value("Typed::inner_ty", typed.inner_ty(alloc));
    lines.option(
        "Typed::convert_inner_to",
        type_of(typed.convert_inner_to(alloc, element)),
    );
    lines.option("Typed::concretize", type_of(typed.concretize(alloc)));
}

/// The answer without its line.
fn type_of(answer: Result<Option<Typed>, AllocError>) -> Result<Option<Type>, AllocError> {
    match answer? {
        Some(typed) => Ok(Some(typed.ty)),
        None => Ok(None),
    }
}

fn print_conversions<W: Write>(lines: &mut Lines<W>, vectors: &[Type; 2]) {
    let alloc = lines.alloc;
    let [from, to] = vectors;
    lines.option("convert_to", from.convert_to(alloc, to));
    lines.option("convert_inner_to", from.convert_inner_to(alloc, &Type::F16));
    lines.pair("convert", convert(alloc, from, to));
    lines.pair("convert_inner", convert_inner(alloc, from, to));
    lines.list("convert_all", convert_all(alloc, vectors));
    lines.list("convert_all_to", convert_all_to(alloc, vectors, to));
    lines.list(
        "convert_all_inner_to",
        convert_all_inner_to(alloc, vectors, &Type::U32),
    );
}

fn print_checks<W: Write>(lines: &mut Lines<W>, structure: &StructType, vectors: &[Type; 2]) {
    let alloc = lines.alloc;
    let [lhs, rhs] = vectors;
    lines.candidate(
        "binary_candidate",
        binary_candidate(alloc, BinaryOperator::Addition, lhs, rhs),
    );
    lines.check(
        "typecheck_struct_ctor, refused",
        typecheck_struct_ctor(alloc, structure, &[Type::F32]),
    );
}
