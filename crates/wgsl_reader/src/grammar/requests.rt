// What is asked about types: declarations, statements without statements inside, and questions, behind declarations.

use crate::grammar::{Line, Symbol};
use crate::kind::Kind;
use crate::mark::Mark;
use crate::rule::Rule;

pub static REQUESTS: &[(Rule, &[Line])] = grammar! {
    Request {
        TypeOf => [TypeOf (Expression) (SemicolonIfAny)]
        Struct => [(Headed) {Struct} (Request)]
        Fn => [Fn Name {Heading} OpenRound (Parameters) CloseRound (Result) (BlockIfAny) {Function} (Request)]
        _ => [(Asked) (SemicolonIfAny)]
    }
    Asked {
        Load => [Load {Keyword} (Expression) {Initialized}]
        Resolve => [Resolve (Expression) {Resolve}]
        Why => [Why (Expression) {Why}]
        Overloads => [Overloads Name {Overloads}]
        Rank => [Rank {Keyword} (AskedType) Comma (AskedType)]
        Common => [Common {Keyword} (AskedTypes)]
        Size => [Size {Keyword} (AskedType)]
        Offsets => [Offsets {Keyword} (AskedType)]
        Layout => [Layout {Keyword} (AskedType)]
        Let => [Let {Keyword} Name (TypeIfAny) Equal (Expression) {Initialized}]
        ConstOperand => [ConstOperand {Keyword} Name (TypeIfAny) Equal (Expression) {Initialized}]
        Override => [Override {Keyword} Name (Valued)]
        Var => [Var {Keyword} (Memory) Name (Valued)]
        ConstAssert => [ConstAssert {Keyword} (Expression) {Condition}]
        If => [If {Keyword} (Expression) {Condition} (BlockIfAny)]
        While => [While {Keyword} (Expression) {Condition} (BlockIfAny)]
        Switch => [Switch {Keyword} (Expression) {Selector} OpenCurly (EmptyClause) (EmptyClauses) CloseCurly]
        Return => [Return {Keyword} (ReturnedIfAny)]
        Underscore => [Underscore {Keyword} Equal (Expression) {Initialized}]
        Name => [Name {Name} (AfterFirst)]
        _ => [(Unary) (Assignment)]
    }
    Headed { _ => [Struct Name {Heading} OpenCurly (Member) (MoreMembers) CloseCurly] }
    AskedType {
        Struct => [(Headed) {StructType}]
        _ => [(Type) {Typed}]
    }
    AskedTypes {
        End | Semicolon => []
        _ => [(AskedType) (MoreAskedTypes)]
    }
    MoreAskedTypes {
        Comma => [Comma (AskedType) (MoreAskedTypes)]
        _ => []
    }
    ReturnedIfAny {
        End | Semicolon => []
        _ => [(Expression) {Returned}]
    }
    AfterFirst {
        OpenTemplate => [(Template) (Call) (AfterCall)]
        _ => [(Call) (AfterCall)]
    }
    AfterCall {
        End | Semicolon => [{CallStatement}]
        _ => [(Postfix) (Assignment)]
    }
    Valued {
        Colon => [Colon (Type) {Typed} (Initializer)]
        _ => [Equal (Expression) {Initialized}]
    }
    Memory {
        OpenTemplate => [OpenTemplate Name {AddressSpace} (MoreMemory) CloseTemplate]
        _ => []
    }
    MoreMemory {
        Comma => [Comma (AccessMode)]
        _ => []
    }
    AccessMode {
        Name => [Name {AccessMode} (CommaIfAny)]
        _ => []
    }
    BlockIfAny {
        OpenCurly => [OpenCurly CloseCurly]
        _ => []
    }
    EmptyClauses {
        CloseCurly => []
        _ => [(EmptyClause) (EmptyClauses)]
    }
    EmptyClause {
        Default => [Default (ColonIfAny) OpenCurly CloseCurly]
        _ => [Case (CaseSelector) (MoreSelectors) (ColonIfAny) OpenCurly CloseCurly]
    }
    SemicolonIfAny {
        Semicolon => [Semicolon]
        _ => []
    }
};
