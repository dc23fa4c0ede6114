// Types and expressions (WGSL, "Expression Grammar Summary").

use crate::grammar::{Line, Symbol};
use crate::kind::Kind;
use crate::mark::Mark;
use crate::rule::Rule;

pub static EXPRESSIONS: &[(Rule, &[Line])] = grammar! {
    Type { _ => [Name {Name} (Template)] }
    Template {
        OpenTemplate => [OpenTemplate {OpenTemplate} (Expression) (MoreTemplate) CloseTemplate {Template}]
        _ => []
    }
    MoreTemplate {
        Comma => [Comma (LastTemplate)]
        _ => []
    }
    LastTemplate {
        CloseTemplate => []
        _ => [(Expression) (MoreTemplate)]
    }
    Arguments {
        CloseRound => []
        _ => [(Expression) {Argument} (MoreArguments)]
    }
    MoreArguments {
        Comma => [Comma (Arguments)]
        _ => []
    }
    Call {
        OpenRound => [OpenRound {Open} (Arguments) CloseRound {Call}]
        _ => [{Value}]
    }
    Postfix {
        Period => [Period Name {MemberOf} (Postfix)]
        OpenSquare => [OpenSquare {OpenElement} (Expression) CloseSquare {Element} (Postfix)]
        _ => []
    }
    Prefix {
        Minus => [Minus {Operator}]
        Bang => [Bang {Operator}]
        Tilde => [Tilde {Operator}]
        Star => [Star {Operator}]
        _ => [And {Operator}]
    }
    Unary {
        Name => [Name {Name} (AfterValue)]
        Number => [Number {Literal} (Postfix)]
        OpenRound => [OpenRound (Expression) CloseRound {Brackets} (Postfix)]
        Minus | Bang | Tilde | Star | And => [(Prefix) (Unary) {Unary}]
        True => [True {Literal} (Postfix)]
        False => [False {Literal} (Postfix)]
        ConstOperand => [ConstOperand (Type) {Constant} (Postfix)]
    }
    AfterValue {
        OpenRound => [OpenRound {Open} (Arguments) CloseRound {Call} (Postfix)]
        OpenTemplate => [(Template) (Call) (Postfix)]
        Period | OpenSquare => [{Value} (Postfix)]
        _ => [{Value}]
    }
    Expression { _ => [(Unary) (Operators)] }
    Operators {
        Comma | CloseRound | CloseTemplate | End | Semicolon => []
        Plus | Minus => [(Sum) (AfterSum)]
        Star | Slash | Percent => [(Product) (Sum) (AfterSum)]
        And => [(Ands)]
        Or => [(Ors)]
        Xor => [(Xors)]
        _ => [(Shift) (AfterSum)]
    }
    AfterSum {
        End | Comma | CloseRound | CloseTemplate | Semicolon => []
        _ => [(Comparison) (Logic)]
    }
    Ands {
        And => [And {Operator} (Unary) {Binary} (Ands)]
        _ => []
    }
    Ors {
        Or => [Or {Operator} (Unary) {Binary} (Ors)]
        _ => []
    }
    Xors {
        Xor => [Xor {Operator} (Unary) {Binary} (Xors)]
        _ => []
    }
    Shift {
        ShiftLeft => [ShiftLeft {Operator} (Unary) {Binary}]
        ShiftRight => [ShiftRight {Operator} (Unary) {Binary}]
        _ => [(Product) (Sum)]
    }
    Product {
        Star => [Star {Operator} (Unary) {Binary} (Product)]
        Slash => [Slash {Operator} (Unary) {Binary} (Product)]
        Percent => [Percent {Operator} (Unary) {Binary} (Product)]
        _ => []
    }
    Sum {
        Plus => [Plus {Operator} (Unary) (Product) {Binary} (Sum)]
        Minus => [Minus {Operator} (Unary) (Product) {Binary} (Sum)]
        _ => []
    }
    Comparison {
        Less => [Less {Operator} (Unary) (Shift) {Binary}]
        LessEqual => [LessEqual {Operator} (Unary) (Shift) {Binary}]
        Greater => [Greater {Operator} (Unary) (Shift) {Binary}]
        GreaterEqual => [GreaterEqual {Operator} (Unary) (Shift) {Binary}]
        EqualEqual => [EqualEqual {Operator} (Unary) (Shift) {Binary}]
        NotEqual => [NotEqual {Operator} (Unary) (Shift) {Binary}]
        _ => []
    }
    Logic {
        AndAnd => [(AndAnds)]
        OrOr => [(OrOrs)]
        _ => []
    }
    AndAnds {
        AndAnd => [AndAnd {Operator} (Unary) (Shift) (Comparison) {Binary} (AndAnds)]
        _ => []
    }
    OrOrs {
        OrOr => [OrOr {Operator} (Unary) (Shift) (Comparison) {Binary} (OrOrs)]
        _ => []
    }
};
