// What may stand where a token can't.
ghost use Rattle.std.specs.Prelude.{◌≡◌, All, IfOk, IsTrue, map};
ghost use Rattle.wgsl_reader.specs.Expected.{MayStand};
ghost use Rattle.wgsl_reader.specs.Reading.{kind_of};

use crate::kind::Kind;
use crate::read::read;
use crate::rule::Rule;
use crate::token::Token;
use std::alloc::{AllocError, Global};

macro_rules! spellings {
    ($($kind:ident $spelling:literal),+ $(,)?) => {
        &[$((Kind::$kind, $spelling)),+]
    };
}

/// How a message names a token of each kind, in the order in which it lists them.
static SPELLINGS: &[(Kind, &str)] = spellings! {
    Name "a name", Number "a number", True "`true`", False "`false`", At "an attribute",
    Enable "`enable`", Requires "`requires`", Diagnostic "`diagnostic`", Alias "`alias`",
    Const "`const`", ConstAssert "`const_assert`", Fn "`fn`", Let "`let`", Override "`override`",
    Struct "`struct`", Var "`var`", Break "`break`", Case "`case`", Continue "`continue`",
    Continuing "`continuing`", Default "`default`", Discard "`discard`", Else "`else`",
    For "`for`", If "`if`", Loop "`loop`", Return "`return`", Switch "`switch`", While "`while`",
    Underscore "`_`", OpenRound "`(`", CloseRound "`)`", OpenSquare "`[`", CloseSquare "`]`",
    OpenCurly "`{`", CloseCurly "`}`", OpenTemplate "`<`", CloseTemplate "`>`", Comma "`,`",
    Semicolon "`;`", Colon "`:`", Period "`.`", Arrow "`->`", Equal "`=`", OperatorEqual "`+=`",
    PlusPlus "`++`", MinusMinus "`--`", Bang "`!`", Tilde "`~`", And "`&`", Or "`|`", Xor "`^`",
    AndAnd "`&&`", OrOr "`||`", Star "`*`", Slash "`/`", Percent "`%`", Plus "`+`", Minus "`-`",
    ShiftLeft "`<<`", ShiftRight "`>>`", Less "`<`", LessEqual "`<=`", Greater "`>`",
    GreaterEqual "`>=`", EqualEqual "`==`", NotEqual "`!=`",
};

macro_rules! groups {
    ($($least:literal $name:literal: $($kind:ident)+;)+) => {
        &[$(($least, $name, &[$(Kind::$kind),+])),+]
    };
}

/// What a message says in place of the kinds, if at least this number of them may stand.
static GROUPS: &[(usize, &str, &[Kind])] = groups! {
    8 "a declaration": Alias At Const ConstAssert Diagnostic Enable Fn Override Requires Semicolon
        Struct Var;
    16 "a statement": And At Break Const ConstAssert Continue Discard For If Let Loop Name OpenCurly
        OpenRound Return Semicolon Star Switch Underscore Var While;
    10 "an expression": And Bang False Minus Name Number OpenRound Star Tilde True;
    5 "an operator": And AndAnd EqualEqual Greater GreaterEqual Less LessEqual Minus NotEqual
        OpenRound OpenSquare OpenTemplate Or OrOr Percent Period Plus ShiftLeft ShiftRight Slash Star
        Xor;
    4 "an assignment": Equal MinusMinus OperatorEqual PlusPlus;
};

/// Whether a token of this kind may stand behind these.
fn may_stand(
    alloc: Global,
    rule: Rule,
    tokens: &mut Vec<Token>,
    kind: Kind,
) -> Result<bool, AllocError>
    ensures stands { IfOk result (λ stands. IsTrue stands → MayStand rule (map kind_of tokens.old.items) kind) }
    ensures same { IfOk result (λ stands. tokens.new.items ≡ tokens.old.items) }
{
    let len = tokens.len();
    tokens.push(Token {
        kind,
        at: 0,
        len: 0,
    })?;
    let outcome = read(alloc, rule, &*tokens, 0)?;
    tokens.pop();
    match outcome {
        Ok(_) => Ok(true),
        Err(at) => Ok(at != len),
    }
}

/// Whether a token of this kind may stand behind these, which begin what is read by the rule.
pub fn may_stand_behind(
    alloc: Global,
    rule: Rule,
    tokens: &[Token],
    kind: Kind,
) -> Result<bool, AllocError>
    ensures { IfOk result (λ stands. IsTrue stands → MayStand rule (map kind_of tokens.now) kind) }
{
    let mut tried = Vec::new(alloc);
    tried.extend_from_slice(tokens)?;
    may_stand(alloc, rule, &mut tried, kind)
}

/// The kinds of the tokens that may stand behind these.
fn kinds_behind(alloc: Global, rule: Rule, tokens: &[Token]) -> Result<Vec<Kind>, AllocError>
    ensures { IfOk result (λ found. All (MayStand rule (map kind_of tokens.now)) found.items) }
{
    let mut found = Vec::new(alloc);
    let mut tried = Vec::new(alloc);
    tried.extend_from_slice(tokens)?;
    for (kind, _) in SPELLINGS {
        if !may_stand(alloc, rule, &mut tried, *kind)? {
            continue;
        }
        found.push(*kind)?;
    }
    Ok(found)
}

/// What may stand behind these tokens, which begin what is read by the rule: "expected `;` or an operator".
pub fn expected(alloc: Global, rule: Rule, tokens: &[Token]) -> Result<String, AllocError> {
    let mut kinds = kinds_behind(alloc, rule, tokens)?;
    let mut groups: Vec<&str> = Vec::new(alloc);
    for (least, name, group) in GROUPS {
        if kinds.iter().filter(|kind| group.contains(kind)).count() >= *least {
            groups.push(name)?;
            kinds.retain(|kind| !group.contains(kind));
        }
    }
    let mut names: Vec<&str> = Vec::new(alloc);
    for (kind, spelling) in SPELLINGS {
        if kinds.contains(kind) {
            names.push(spelling)?;
        }
    }
    names.extend_from_slice(&groups)?;
    listed(alloc, &names)
}

/// "expected `:`, `,` or `)`"
fn listed(alloc: Global, names: &[&str]) -> Result<String, AllocError> {
    let mut text = String::from_str(alloc, "expected")?;
    for (index, name) in names.iter().enumerate() {
        text.push_str(if index == 0 {
            " "
        } else if index + 1 == names.len() {
            " or "
        } else {
            ", "
        })?;
        text.push_str(name)?;
    }
    if names.is_empty() {
        text.push_str(" the end")?;
    }
    Ok(text)
}
