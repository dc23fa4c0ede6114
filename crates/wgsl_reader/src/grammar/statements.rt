// Statements (WGSL, "Statements").

use crate::grammar::{Line, Symbol};
use crate::kind::Kind;
use crate::mark::Mark;
use crate::rule::Rule;

pub static STATEMENTS: &[(Rule, &[Line])] = grammar! {
    Body {
        At => [(Attribute) (Body)]
        _ => [OpenCurly {Open} (Statements) CloseCurly {Block}]
    }
    Statements {
        CloseCurly | Continuing => []
        _ => [(Statement) (Statements)]
    }
    Statement {
        Semicolon => [Semicolon]
        Return => [Return (Returned) Semicolon {Return}]
        Break => [Break Semicolon {Break}]
        Continue => [Continue Semicolon {Continue}]
        Discard => [Discard Semicolon {Discard}]
        ConstAssert => [ConstAssert (Expression) Semicolon {ConstAssert}]
        Const | Let | Var => [(Local) Semicolon]
        At | If | Switch | Loop | For | While | OpenCurly => [(AttributedStatement)]
        _ => [(Update) Semicolon]
    }
    Returned {
        Semicolon => []
        _ => [(Expression) {Returned}]
    }
    Local {
        Const => [Const (Declared) Equal (Expression) {Const}]
        Let => [Let (Declared) Equal (Expression) {Let}]
        _ => [Var (Template) (Declared) (Initializer) {Variable}]
    }
    AttributedStatement {
        At => [(Attribute) (AttributedStatement)]
        If => [(If)]
        Switch => [Switch {Begin} (Expression) {Selector} (SwitchBody) {Switch}]
        Loop => [Loop {Begin} (LoopBody) {Loop}]
        For => [For {Begin} OpenRound (ForStart) Semicolon (ForTest) Semicolon (ForUpdate) CloseRound (Body) {For}]
        While => [While {Begin} (Expression) {Condition} (Body) {While}]
        _ => [(Body)]
    }
    If { _ => [If {Begin} (Expression) {Condition} (Body) (Else) {If}] }
    Else {
        Else => [Else (ElseBody)]
        _ => []
    }
    ElseBody {
        If => [(If) {Else}]
        _ => [(Body) {Else}]
    }
    SwitchBody {
        At => [(Attribute) (SwitchBody)]
        _ => [OpenCurly (Clause) (Clauses) CloseCurly]
    }
    Clauses {
        CloseCurly => []
        _ => [(Clause) (Clauses)]
    }
    Clause {
        Default => [Default {DefaultSelector} (ColonIfAny) (Body) {Case}]
        _ => [Case (CaseSelector) (MoreSelectors) (ColonIfAny) (Body) {Case}]
    }
    CaseSelector {
        Default => [Default {DefaultSelector}]
        _ => [(Expression) {CaseSelector}]
    }
    MoreSelectors {
        Comma => [Comma (LastSelectors)]
        _ => []
    }
    LastSelectors {
        Colon | OpenCurly | At => []
        _ => [(CaseSelector) (MoreSelectors)]
    }
    ColonIfAny {
        Colon => [Colon]
        _ => []
    }
    LoopBody {
        At => [(Attribute) (LoopBody)]
        _ => [OpenCurly {Open} (Statements) (Continuing) CloseCurly {Block}]
    }
    Continuing {
        Continuing => [Continuing {Begin} (ContinuingBody) {Continuing}]
        _ => []
    }
    ContinuingBody {
        At => [(Attribute) (ContinuingBody)]
        _ => [OpenCurly {Open} (ContinuingStatements) CloseCurly {Block}]
    }
    ContinuingStatements {
        CloseCurly => []
        Break => [Break (BreakEnd)]
        _ => [(Statement) (ContinuingStatements)]
    }
    BreakEnd {
        If => [If (Expression) Semicolon {BreakIf}]
        _ => [Semicolon {Break} (ContinuingStatements)]
    }
    ForStart {
        Semicolon => []
        Const | Let | Var => [(Local)]
        _ => [(Update)]
    }
    ForTest {
        Semicolon => []
        _ => [(Expression) {Condition}]
    }
    ForUpdate {
        CloseRound => []
        _ => [(Update)]
    }
    Update {
        Underscore => [Underscore Equal (Expression) {Phony}]
        Name => [Name {Name} (AfterName)]
        _ => [(Left) (Assignment)]
    }
    AfterName {
        OpenTemplate => [(Template) OpenRound {Open} (Arguments) CloseRound {Call} {CallStatement}]
        OpenRound => [OpenRound {Open} (Arguments) CloseRound {Call} {CallStatement}]
        _ => [{Value} (Postfix) (Assignment)]
    }
    Left {
        Star | And => [(Prefix) (Left) {Unary}]
        _ => [(LeftCore) (Postfix)]
    }
    LeftCore {
        OpenRound => [OpenRound (Left) CloseRound {Brackets}]
        _ => [Name {Name} {Value}]
    }
    Assignment {
        Equal => [Equal (Expression) {Assign}]
        OperatorEqual => [OperatorEqual {Operator} (Expression) {AssignBy}]
        PlusPlus => [PlusPlus {Increment}]
        _ => [MinusMinus {Decrement}]
    }
};
