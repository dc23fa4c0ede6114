// The parts of an overload.
ghost use Rattle.std.specs.Prelude.{◌≡◌};
ghost use Rattle.wgsl_rules.specs.standard.Overloads.{parameters_of as parameters_there, result_of as result_there, kinds_of as kinds_there};

use wgsl_syntax::overload::{Kind, Overload, Parameters, Returns};

/// The parameters of an overload.
pub fn parameters_of(overload: &Overload) -> &Parameters
    ensures { result.now ≡ parameters_there overload.now }
{
    match overload {
        Overload::Plain(parameters, _) => parameters,
        Overload::WithT(parameters, _, _) => parameters,
        Overload::WithTAndU(parameters, _, _, _) => parameters,
        Overload::WithThree(parameters, _, _, _, _) => parameters,
        Overload::WithFour(parameters, _, _, _, _, _) => parameters,
    }
}

/// What an overload returns.
pub fn result_of(overload: &Overload) -> &Returns
    ensures { result.now ≡ result_there overload.now }
{
    match overload {
        Overload::Plain(_, result) => result,
        Overload::WithT(_, result, _) => result,
        Overload::WithTAndU(_, result, _, _) => result,
        Overload::WithThree(_, result, _, _, _) => result,
        Overload::WithFour(_, result, _, _, _, _) => result,
    }
}

/// The kinds of the letters T, U, V and W.
#[inline(always)]
pub fn kinds_of(overload: &Overload) -> (Kind, Kind, Kind, Kind)
    ensures { result ≡ kinds_there overload.now }
{
    let any = Kind::AnyScalar;
    match overload {
        Overload::Plain(_, _) => (any, any, any, any),
        Overload::WithT(_, _, t) => (*t, any, any, any),
        Overload::WithTAndU(_, _, t, u) => (*t, *u, any, any),
        Overload::WithThree(_, _, t, u, v) => (*t, *u, *v, any),
        Overload::WithFour(_, _, t, u, v, w) => (*t, *u, *v, *w),
    }
}
