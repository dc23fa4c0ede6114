// Vectors of integers, and their components (WGSL, "Value Constructor Built-in Functions", "Vector Access Expression").
ghost use Rattle.std.specs.Prelude.{[], ◌≡◌, ◌∷◌, false};
ghost use Rattle.wgsl_constants.specs.Vectors.{alike, component, component_named, dot, each, each_of_two, element, filled, four, like, made_of_one, made_of_two, member, same, size_named, sum, sum_of, swizzle, three, two, vector_of, with_components, with_two, zero_of};

use crate::call::{Arguments, CallError, Function, integer};
use crate::constant::Constant;
use crate::function::select;
use crate::integer::{Integer, IntegerError, IntegerOperator};
use wgsl_syntax::scalar::Scalar;

/// The number of components of a vector.
#[derive(Clone, Copy)]
pub enum Size {
    Two,
    Three,
    Four,
}

/// A component of a vector.
#[derive(Clone, Copy)]
pub enum Component {
    First,
    Second,
    Third,
    Fourth,
}

/// The components of the longest vectors, in order.
pub const COMPONENTS: [Component; 4] = [
    Component::First,
    Component::Second,
    Component::Third,
    Component::Fourth,
];

/// A vector of integers of one type.
#[derive(Clone, Copy)]
pub enum Vector {
    Two(Integer, Integer),
    Three(Integer, Integer, Integer),
    Four(Integer, Integer, Integer, Integer),
}

impl Size {
    /// The number of components of `vec2`, `vec3` or `vec4`.
    pub fn named(name: &str) -> Option<Size>
        ensures { result ≡ size_named name.now }
    {
        match name {
            "vec2" => Some(Size::Two),
            "vec3" => Some(Size::Three),
            "vec4" => Some(Size::Four),
            _ => None,
        }
    }
}

impl Component {
    /// The component with this letter: one of `xyzw`, or of `rgba`.
    pub fn named(letter: &str) -> Option<Component>
        ensures { result ≡ component_named letter.now }
    {
        match letter {
            "x" | "r" => Some(Component::First),
            "y" | "g" => Some(Component::Second),
            "z" | "b" => Some(Component::Third),
            "w" | "a" => Some(Component::Fourth),
            _ => None,
        }
    }

    /// The same of one byte.
    fn with_letter(letter: u8) -> Option<Component>
        ensures { result ≡ component_named (letter ∷ []) }
    {
        match letter {
            b'x' | b'r' => Some(Component::First),
            b'y' | b'g' => Some(Component::Second),
            b'z' | b'b' => Some(Component::Third),
            b'w' | b'a' => Some(Component::Fourth),
            _ => None,
        }
    }
}

impl Vector {
    /// The vector that a constructor makes: of one integer for all components, of one for each, or of zeros. It is
    /// `WrongArgumentCount` for more or fewer arguments, else `NotInteger` if one is no integer, else the error of their
    /// conversion to one type.
    pub fn of(size: Size, arguments: Arguments) -> Result<Vector, CallError>
        ensures { result ≡ vector_of size arguments }
    {
        match (arguments, size) {
            (Arguments::Zero, _) => Ok(same(size, Integer::Abstract(0))),
            (Arguments::One(a), _) => Ok(same(size, integer(a)?)),
            (Arguments::Two(a, b), Size::Two) => Ok(two(integer(a)?, integer(b)?)?),
            (Arguments::Three(a, b, c), Size::Three) => {
                Ok(three(integer(a)?, integer(b)?, integer(c)?)?)
            }
            (Arguments::Four(a, b, c, d), Size::Four) => {
                Ok(four(integer(a)?, integer(b)?, integer(c)?, integer(d)?)?)
            }
            _ => Err(CallError::WrongArgumentCount),
        }
    }

    /// The vector in the type to which its components and an integer convert.
    pub fn like(self, of: Integer) -> Result<Vector, IntegerError>
        ensures { result ≡ like of self }
    {
        match self {
            Vector::Two(a, b) => Ok(Vector::Two(alike(a, of)?, alike(b, of)?)),
            Vector::Three(a, b, c) => {
                Ok(Vector::Three(alike(a, of)?, alike(b, of)?, alike(c, of)?))
            }
            Vector::Four(a, b, c, d) => Ok(Vector::Four(
                alike(a, of)?,
                alike(b, of)?,
                alike(c, of)?,
                alike(d, of)?,
            )),
        }
    }

    /// A component; None if the vector has fewer.
    pub fn component(self, which: Component) -> Option<Integer>
        ensures { result ≡ component which self }
    {
        match (which, self) {
            (Component::First, Vector::Two(x, _) | Vector::Three(x, _, _)) => Some(x),
            (Component::First, Vector::Four(x, _, _, _)) => Some(x),
            (Component::Second, Vector::Two(_, y) | Vector::Three(_, y, _)) => Some(y),
            (Component::Second, Vector::Four(_, y, _, _)) => Some(y),
            (Component::Third, Vector::Three(_, _, z) | Vector::Four(_, _, z, _)) => Some(z),
            (Component::Fourth, Vector::Four(_, _, _, w)) => Some(w),
            _ => None,
        }
    }

    /// The component at an index; None if there is none.
    pub fn element(self, index: i64) -> Option<Integer>
        ensures { result ≡ element index self }
    {
        self.component(*COMPONENTS.get(usize::try_from(index).ok()?)?)
    }

    /// The component with this letter; None if there is none.
    pub fn member(self, letter: &str) -> Option<Integer>
        ensures { result ≡ member letter.now self }
    {
        self.component(Component::named(letter)?)
    }

    fn at(self, letter: u8) -> Option<Integer>
        ensures { result ≡ member (letter ∷ []) self }
    {
        self.component(Component::with_letter(letter)?)
    }

    /// The vector of the components with these letters, of which there are two to four.
    pub fn swizzle(self, letters: &str) -> Option<Vector>
        ensures { result ≡ swizzle letters.now self }
    {
        match letters.as_bytes() {
            [p, q] => Some(Vector::Two(self.at(*p)?, self.at(*q)?)),
            [p, q, r] => Some(Vector::Three(self.at(*p)?, self.at(*q)?, self.at(*r)?)),
            [p, q, r, s] => Some(Vector::Four(
                self.at(*p)?,
                self.at(*q)?,
                self.at(*r)?,
                self.at(*s)?,
            )),
            _ => None,
        }
    }

    /// The arguments with the components behind them; None if they are more than four.
    pub fn behind(self, given: Arguments) -> Option<Arguments>
        ensures { result ≡ with_components self given }
    {
        match self {
            Vector::Two(a, b) => with_two(given, a, b),
            Vector::Three(x, y, z) => with_two(given, x, y)?.with(Constant::Integer(z)),
            Vector::Four(x, y, z, w) => with_two(with_two(given, x, y)?, z, w),
        }
    }

    /// The integers that a function makes of the components. It is `NotInteger` of a function that makes no integers.
    pub fn each(self, function: Function) -> Result<Vector, CallError>
        ensures { result ≡ each function self }
    {
        match self {
            Vector::Two(x, y) => {
                Ok(Vector::Two(made_of_one(function, x)?, made_of_one(function, y)?))
            }
            Vector::Three(x, y, z) => Ok(Vector::Three(
                made_of_one(function, x)?,
                made_of_one(function, y)?,
                made_of_one(function, z)?,
            )),
            Vector::Four(x, y, z, w) => Ok(Vector::Four(
                made_of_one(function, x)?,
                made_of_one(function, y)?,
                made_of_one(function, z)?,
                made_of_one(function, w)?,
            )),
        }
    }

    /// The integers that a function makes of the components of two vectors. It is `NotInteger` of vectors of other lengths too.
    pub fn each_of_two(self, function: Function, other: Vector) -> Result<Vector, CallError>
        ensures { result ≡ each_of_two function self other }
    {
        match (self, other) {
            (Vector::Two(a, b), Vector::Two(x, y)) => {
                Ok(Vector::Two(made_of_two(function, a, x)?, made_of_two(function, b, y)?))
            }
            (Vector::Three(a, b, c), Vector::Three(x, y, z)) => Ok(Vector::Three(
                made_of_two(function, a, x)?,
                made_of_two(function, b, y)?,
                made_of_two(function, c, z)?,
            )),
            (Vector::Four(a, b, c, d), Vector::Four(x, y, z, w)) => Ok(Vector::Four(
                made_of_two(function, a, x)?,
                made_of_two(function, b, y)?,
                made_of_two(function, c, z)?,
                made_of_two(function, d, w)?,
            )),
            _ => Err(CallError::NotInteger),
        }
    }

    /// The vector of the same length with one integer for all components.
    pub fn filled(self, n: Integer) -> Vector
        ensures { result ≡ filled n self }
    {
        match self {
            Vector::Two(_, _) => Vector::Two(n, n),
            Vector::Three(_, _, _) => Vector::Three(n, n, n),
            Vector::Four(_, _, _, _) => Vector::Four(n, n, n, n),
        }
    }

    /// `dot`: the sum of the products of the components. It is `NotInteger` of vectors of other lengths.
    pub fn dot(self, other: Vector) -> Result<Integer, CallError>
        ensures { result ≡ dot self other }
    {
        let products = self.each_of_two(
            Function::Operator(IntegerOperator::Multiplication),
            other,
        )?;
        products.sum()
    }

    fn sum(self) -> Result<Integer, CallError>
        ensures { result ≡ sum_of self }
    {
        match self {
            Vector::Two(x, y) => sum(x, y),
            Vector::Three(x, y, z) => sum(sum(x, y)?, z),
            Vector::Four(x, y, z, w) => sum(sum(sum(x, y)?, z)?, w),
        }
    }
}

fn sum(a: Integer, b: Integer) -> Result<Integer, CallError>
    ensures { result ≡ sum a b }
{
    made_of_two(Function::Operator(IntegerOperator::Addition), a, b)
}

/// The integer that a function makes of one.
fn made_of_one(function: Function, a: Integer) -> Result<Integer, CallError>
    ensures { result ≡ made_of_one function a }
{
    integer(function.apply(Arguments::One(Constant::Integer(a)))?)
}

/// The integer that a function makes of two.
pub fn made_of_two(function: Function, a: Integer, b: Integer) -> Result<Integer, CallError>
    ensures { result ≡ made_of_two function a b }
{
    integer(function.apply(Arguments::Two(Constant::Integer(a), Constant::Integer(b)))?)
}

fn with_two(given: Arguments, a: Integer, b: Integer) -> Option<Arguments>
    ensures { result ≡ with_two a b given }
{
    given.with(Constant::Integer(a))?.with(Constant::Integer(b))
}

/// The vector with one integer for all components.
fn same(size: Size, n: Integer) -> Vector
    ensures { result ≡ same size n }
{
    match size {
        Size::Two => Vector::Two(n, n),
        Size::Three => Vector::Three(n, n, n),
        Size::Four => Vector::Four(n, n, n, n),
    }
}

/// The first integer, in the type to which both convert.
pub fn alike(a: Integer, b: Integer) -> Result<Integer, IntegerError>
    ensures { result ≡ alike a b }
{
    select(a, b, false)
}

/// The zero of a type of integers.
pub fn zero_of(scalar: Scalar) -> Option<Integer>
    ensures { result ≡ zero_of scalar }
{
    match scalar {
        Scalar::AbstractInt => Some(Integer::Abstract(0)),
        Scalar::I32 => Some(Integer::I32(0)),
        Scalar::U32 => Some(Integer::U32(0)),
        _ => None,
    }
}

fn two(a: Integer, b: Integer) -> Result<Vector, IntegerError>
    ensures { result ≡ two a b }
{
    Vector::Two(a, b).like(alike(a, b)?)
}

fn three(a: Integer, b: Integer, c: Integer) -> Result<Vector, IntegerError>
    ensures { result ≡ three a b c }
{
    Vector::Three(a, b, c).like(alike(alike(a, b)?, c)?)
}

fn four(a: Integer, b: Integer, c: Integer, d: Integer) -> Result<Vector, IntegerError>
    ensures { result ≡ four a b c d }
{
    Vector::Four(a, b, c, d).like(alike(alike(alike(a, b)?, c)?, d)?)
}
