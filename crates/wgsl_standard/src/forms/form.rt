// The types that forms return, without allocating them.
ghost use Rattle.std.specs.Prelude.{◌≡◌, IfOk, Some};
ghost use Rattle.wgsl_standard.specs.forms.Prelude.{view, within, given_type};
ghost use Rattle.wgsl_standard.specs.forms.Expressions.{shown_as};
ghost use Rattle.wgsl_standard.specs.forms.Views.{element_view, form_type_view, referent_of, unbuilt_view, viewed};

use crate::forms::prelude::*;

/// A type that isn't built, or that is another type made concrete.
#[derive(Clone, Copy)]
pub enum Element<'a> {
    /// A scalar, or a vector or a matrix of scalars.
    Value(Dimensions, Scalar),
    /// A type of any form.
    Any(&'a Type),
    /// The concrete type for that type.
    Concrete(&'a Type),
}

/// A type that isn't built yet: an element, or an array, a vector or a matrix of it.
#[derive(Clone, Copy)]
pub struct UnbuiltType<'a> {
    pub layer: Option<Layer>,
    pub element: Element<'a>,
}

/// Which part of a vector a reference points to, which its type doesn't say. Any other expression is `Whole`.
#[derive(Clone, Copy)]
pub enum Referent {
    /// Neither of the others.
    Whole,
    /// A component of a vector.
    Component,
    /// Several components of a vector, each once.
    Swizzle,
}

/// A reference or a pointer (WGSL, "Memory Views"), without its store type.
#[derive(Clone, Copy)]
pub enum MemoryView {
    Reference(Referent, AddressSpace, AccessMode),
    Pointer(AddressSpace, AccessMode),
}

/// The type of a form: a reference or a pointer to a type, or that type itself.
#[derive(Clone, Copy)]
pub struct FormType<'a> {
    pub memory: Option<MemoryView>,
    pub of: UnbuiltType<'a>,
}

/// What an expression is.
#[derive(Clone, Copy)]
pub struct Form<'a> {
    pub ty: FormType<'a>,
    /// Whether it is a const-expression.
    pub is_constant: bool,
}

impl<'a> UnbuiltType<'a> {
    /// The type of an operand.
    #[inline(always)]
    pub fn of(ty: OperandType<'a>) -> UnbuiltType<'a>
        ensures { unbuilt_view result ≡ given_type ty.entry }
    {
        let element = match ty {
            OperandType::Value(dimensions, scalar) => Element::Value(dimensions, scalar),
            OperandType::Any(ty) => Element::Any(ty),
        };
        UnbuiltType {
            layer: None,
            element,
        }
    }

    /// The element itself.
    #[inline(always)]
    pub fn single(element: Element<'a>) -> UnbuiltType<'a>
        ensures { unbuilt_view result ≡ element_view element.entry }
    {
        UnbuiltType {
            layer: None,
            element,
        }
    }

    /// The element within a layer.
    #[inline(always)]
    pub fn within(layer: Layer, element: Element<'a>) -> UnbuiltType<'a>
        ensures { unbuilt_view result ≡ within layer (element_view element.entry) }
    {
        UnbuiltType {
            layer: Some(layer),
            element,
        }
    }

    /// The type itself.
    #[inline(always)]
    pub fn of_type(ty: &'a Type) -> UnbuiltType<'a>
        ensures { unbuilt_view result ≡ view ty.now }
    {
        UnbuiltType {
            layer: None,
            element: Element::Any(ty),
        }
    }
}

impl<'a> UnbuiltType<'a> {
    /// Builds the type in memory.
    #[inline(always)]
    pub fn build(self, alloc: Global) -> Result<Type, AllocError>
        ensures { IfOk result (λ t. view t ≡ unbuilt_view self.entry) }
    {
        match self.layer {
            None => self.element.build(alloc),
            Some(layer) => layer_around(alloc, layer, self.element),
        }
    }
}

/// Builds the type with the layer around an element.
#[inline(never)]
fn layer_around(alloc: Global, layer: Layer, element: Element<'_>) -> Result<Type, AllocError>
    ensures { IfOk result (λ t. view t ≡ within layer (element_view element.entry)) }
{
    let element = element.build(alloc)?;
    match layer {
        Layer::Array(count) => Type::array(alloc, count, element),
        Layer::Vec(components) => Type::vector(alloc, components, element),
        Layer::Mat(columns, rows) => Type::matrix(alloc, columns, rows, element),
    }
}

impl<'a> Element<'a> {
    /// Builds the type in memory.
    #[inline(always)]
    pub fn build(self, alloc: Global) -> Result<Type, AllocError>
        ensures { IfOk result (λ t. view t ≡ element_view self.entry) }
    {
        match self {
            Element::Value(dimensions, scalar) => value_type(alloc, dimensions, scalar),
            Element::Any(ty) => ty.clone(alloc),
            Element::Concrete(of) => ConcreteType { of }.build(alloc),
        }
    }
}

impl<'a> FormType<'a> {
    /// A type that is no reference or pointer to another.
    #[inline(always)]
    pub fn of(of: UnbuiltType<'a>) -> FormType<'a>
        ensures { form_type_view result ≡ unbuilt_view of.entry }
    {
        FormType { memory: None, of }
    }

    /// Which part of a vector it points to.
    #[inline(always)]
    pub fn referent(self) -> Referent
        ensures { result ≡ referent_of self.entry.memory }
    {
        match self.memory {
            Some(MemoryView::Reference(referent, _, _)) => referent,
            _ => Referent::Whole,
        }
    }

    /// The type that is shown: of a swizzle that of its value.
    #[inline(always)]
    pub fn shown(self) -> FormType<'a>
        ensures { form_type_view result
            ≡ shown_as (referent_of self.entry.memory) (form_type_view self.entry) }
    {
        match self.memory {
            Some(MemoryView::Reference(Referent::Swizzle, _, _)) => FormType::of(self.of),
            _ => self,
        }
    }

    /// Builds the type in memory.
    #[inline(always)]
    pub fn build(self, alloc: Global) -> Result<Type, AllocError>
        ensures { IfOk result (λ t. view t ≡ form_type_view self.entry) }
    {
        match self.memory {
            None => self.of.build(alloc),
            Some(memory) => memory_view(alloc, memory, self.of.build(alloc)?),
        }
    }
}

/// The reference or the pointer to a type.
#[inline(never)]
fn memory_view(alloc: Global, memory: MemoryView, of: Type) -> Result<Type, AllocError>
    ensures { IfOk result (λ t. view t ≡ viewed (Some memory) (view of)) }
{
    let of = Box::new(alloc, of)?;
    Ok(match memory {
        MemoryView::Reference(_, space, access) => Type::Ref(space, of, access),
        MemoryView::Pointer(space, access) => Type::Ptr(space, of, access),
    })
}

impl fmt::Display for Element<'_> {
    ghost use Rattle.std.specs.Prelude.{Some};
    ghost use Rattle.wgsl_rules.specs.types.Spelling.{wgsl_spelling};
    ghost use Rattle.wgsl_standard.specs.forms.Views.{element_view};

    ghost output = { λ e. Some (wgsl_spelling (element_view e)) };

    fn fmt<W: Write>(&self, f: &mut fmt::Formatter<W>) -> fmt::Result {
        match self {
            Element::Value(dimensions, scalar) => {
                write!(f, "{}", OperandType::Value(*dimensions, *scalar))
            }
            Element::Any(ty) => write_type(f, RuleSet::Standard, ty),
            Element::Concrete(of) => write!(f, "{}", ConcreteType { of: *of }),
        }
    }
}

impl fmt::Display for UnbuiltType<'_> {
    ghost use Rattle.std.specs.Prelude.{Some};
    ghost use Rattle.wgsl_rules.specs.types.Spelling.{wgsl_spelling};
    ghost use Rattle.wgsl_standard.specs.forms.Views.{unbuilt_view};

    ghost output = { λ t. Some (wgsl_spelling (unbuilt_view t)) };

    fn fmt<W: Write>(&self, f: &mut fmt::Formatter<W>) -> fmt::Result {
        let of = self.element;
        match self.layer {
            None => write!(f, "{of}"),
            Some(Layer::Array(None)) => write!(f, "array<{of}>"),
            Some(Layer::Array(Some(n))) => write!(f, "array<{of}, {n}>"),
            Some(Layer::Vec(n)) => write!(f, "vec{n}<{of}>"),
            Some(Layer::Mat(c, r)) => write!(f, "mat{c}x{r}<{of}>"),
        }
    }
}

impl fmt::Display for FormType<'_> {
    ghost use Rattle.std.specs.Prelude.{Some};
    ghost use Rattle.wgsl_rules.specs.types.Spelling.{wgsl_spelling};
    ghost use Rattle.wgsl_standard.specs.forms.Views.{form_type_view};

    ghost output = { λ t. Some (wgsl_spelling (form_type_view t)) };

    fn fmt<W: Write>(&self, f: &mut fmt::Formatter<W>) -> fmt::Result {
        let of = self.of;
        match self.memory {
            None => write!(f, "{of}"),
            Some(MemoryView::Reference(_, space, access)) => {
                let space = space.name_by(RuleSet::Standard);
                write!(f, "ref<{space}, {of}, {access}>")
            }
            Some(MemoryView::Pointer(space, access)) => {
                let space = space.name_by(RuleSet::Standard);
                write!(f, "ptr<{space}, {of}, {access}>")
            }
        }
    }
}
