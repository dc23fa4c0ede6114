// The arguments of the calls. Only the generic `both` returns early while it owns a value. A function that does so
// while it owns a type is slow to prove.
use std::alloc::{AllocError, Global};
use wgsl_types::error::Error;
use wgsl_types::inst::{Instance, LiteralInstance};
use wgsl_types::syntax::{AddressSpace, Enumerant};
use wgsl_types::tplt::TpltParam;
use wgsl_types::ty::{StructMemberType, StructType};
use wgsl_types::typed::Typed;
use wgsl_types::{CallSignature, Type};

/// The arguments of all calls.
#[derive(Drop)]
pub struct Arguments {
    pub types: Types,
    pub structs: Structs,
    /// `array<vec2<f16>, 2>(vec2<f16>)`
    pub call: CallSignature,
    /// That no overload takes the call.
    pub refusal: Error,
    pub templates: Templates,
}

/// Types that own memory.
#[derive(Drop)]
pub struct Types {
    /// `vec2<AbstractInt>` and `vec2<u32>`
    pub vectors: [Type; 2],
    /// `array<vec3<AbstractInt>, 2>`
    pub nested: Type,
    /// `nested` with the number of a line.
    pub typed: Typed,
}

/// Structs, and a member.
#[derive(Drop)]
pub struct Structs {
    /// `a: vec2<u32>`
    pub member: StructMemberType,
    /// `struct S { a: vec2<u32>, b: vec2<u32> }`
    pub structure: StructType,
    /// `structure` as a type.
    pub ty: Type,
}

/// Template parameters.
#[derive(Drop)]
pub struct Templates {
    /// `<f32>`
    pub scalar: [TpltParam; 1],
    /// `<vec2<f16>>`
    pub element: [TpltParam; 1],
    /// `<vec2<f16>, 2>`
    pub array: [TpltParam; 2],
    /// `<function, vec2<f16>>`
    pub pointer: [TpltParam; 2],
    /// `<push_constant, f32>`
    pub push_constant: [TpltParam; 2],
}

/// The arguments, if there is memory for them.
pub fn make_arguments(alloc: Global) -> Result<Arguments, AllocError> {
    let first = both(make_types(alloc), make_structs(alloc));
    let signatures = both(signature(alloc), signature(alloc));
    let second = both(signatures, make_templates(alloc));
    let ((types, structs), ((call, refused), templates)) = both(first, second)?;
    Ok(Arguments {
        types,
        structs,
        call,
        refusal: Error::Signature(refused),
        templates,
    })
}

/// Two values, if there was memory for both.
pub fn both<A: Drop, B: Drop>(
    first: Result<A, AllocError>,
    second: Result<B, AllocError>,
) -> Result<(A, B), AllocError> {
    Ok((first?, second?))
}

fn make_types(alloc: Global) -> Result<Types, AllocError> {
    let vectors = both(
        Type::vector(alloc, 2, Type::AbstractInt),
        Type::vector(alloc, 2, Type::U32),
    );
    let ((first, second), (nested, typed)) = both(vectors, both(nested(alloc), typed(alloc)))?;
    Ok(Types {
        vectors: [first, second],
        nested,
        typed,
    })
}

fn nested(alloc: Global) -> Result<Type, AllocError> {
    let element = Type::vector(alloc, 3, Type::AbstractInt)?;
    Type::array(alloc, Some(2), element)
}

fn typed(alloc: Global) -> Result<Typed, AllocError> {
    let ty = nested(alloc)?;
    Ok(Typed { ty, line: 7 })
}

fn make_structs(alloc: Global) -> Result<Structs, AllocError> {
    let first = both(member(alloc, "a"), structure(alloc));
    let ((member, structure), ty) = both(first, struct_type(alloc))?;
    Ok(Structs {
        member,
        structure,
        ty,
    })
}

fn member(alloc: Global, name: &str) -> Result<StructMemberType, AllocError> {
    let (name, ty) = both(
        String::from_str(alloc, name),
        Type::vector(alloc, 2, Type::U32),
    )?;
    Ok(StructMemberType::new(name, ty))
}

fn structure(alloc: Global) -> Result<StructType, AllocError> {
    let (name, members) = both(String::from_str(alloc, "S"), members(alloc))?;
    Ok(StructType { name, members })
}

fn members(alloc: Global) -> Result<Vec<StructMemberType>, AllocError> {
    let (first, second) = both(member(alloc, "a"), member(alloc, "b"))?;
    Ok(Vec::from_array(alloc, [first, second])?)
}

fn struct_type(alloc: Global) -> Result<Type, AllocError> {
    Type::from_struct(alloc, structure(alloc)?)
}

fn signature(alloc: Global) -> Result<CallSignature, AllocError> {
    let lists = both(parameters(alloc), args(alloc));
    let (name, (parameters, args)) = both(String::from_str(alloc, "array"), lists)?;
    Ok(CallSignature {
        name,
        tplt: Some(parameters),
        args,
    })
}

fn parameters(alloc: Global) -> Result<Vec<TpltParam>, AllocError> {
    let parameters = element_and_count(alloc)?;
    Ok(Vec::from_array(alloc, parameters)?)
}

fn args(alloc: Global) -> Result<Vec<Type>, AllocError> {
    let ty = Type::vector(alloc, 2, Type::F16)?;
    Ok(Vec::from_array(alloc, [ty])?)
}

fn make_templates(alloc: Global) -> Result<Templates, AllocError> {
    let arrays = both(element(alloc), element_and_count(alloc));
    let ((element, array), [to]) = both(arrays, element(alloc))?;
    Ok(Templates {
        scalar: [TpltParam::Ty(Type::F32)],
        element,
        array,
        pointer: [in_space(AddressSpace::Function), to],
        push_constant: [
            in_space(AddressSpace::PushConstant),
            TpltParam::Ty(Type::F32),
        ],
    })
}

fn in_space(space: AddressSpace) -> TpltParam {
    TpltParam::Enumerant(Enumerant::AddressSpace(space))
}

fn element(alloc: Global) -> Result<[TpltParam; 1], AllocError> {
    Ok([TpltParam::Ty(Type::vector(alloc, 2, Type::F16)?)])
}

fn element_and_count(alloc: Global) -> Result<[TpltParam; 2], AllocError> {
    let [element] = element(alloc)?;
    let count = TpltParam::Instance(Instance::Literal(LiteralInstance::AbstractInt(2)));
    Ok([element, count])
}
