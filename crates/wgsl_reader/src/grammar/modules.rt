// Modules and their declarations (WGSL, "Directives", "Declaration and Scope").

use crate::grammar::{Line, Symbol};
use crate::kind::Kind;
use crate::mark::Mark;
use crate::rule::Rule;

pub static MODULES: &[(Rule, &[Line])] = grammar! {
    DirectiveOrDeclaration {
        Enable => [Enable (ExtensionNames) Semicolon {Enable}]
        Requires => [Requires (ExtensionNames) Semicolon {Requires}]
        Diagnostic => [Diagnostic (DiagnosticControl) Semicolon {DiagnosticDirective}]
        _ => [(Declaration)]
    }
    ExtensionNames { _ => [Name {Extension} (MoreExtensionNames)] }
    MoreExtensionNames {
        Comma => [Comma (LastExtensionNames)]
        _ => []
    }
    LastExtensionNames {
        Name => [(ExtensionNames)]
        _ => []
    }
    DiagnosticControl { _ => [OpenRound Name {Severity} Comma Name {DiagnosticRule} (DiagnosticPart) (CommaIfAny) CloseRound] }
    DiagnosticPart {
        Period => [Period Name {DiagnosticPart}]
        _ => []
    }
    CommaIfAny {
        Comma => [Comma]
        _ => []
    }
    Declaration {
        Semicolon => [Semicolon]
        Alias => [Alias Name {Name} Equal (Type) Semicolon {Alias}]
        Struct => [Struct Name {Name} OpenCurly (Member) (MoreMembers) CloseCurly {Struct}]
        Const => [Const (Declared) Equal (Expression) Semicolon {Const}]
        ConstAssert => [ConstAssert (Expression) Semicolon {ConstAssert}]
        _ => [(Attributed)]
    }
    Attributed {
        At => [(Attribute) (Attributed)]
        Override => [Override (Declared) (Initializer) Semicolon {Override}]
        Var => [Var (Template) (Declared) (Initializer) Semicolon {Variable}]
        Fn => [Fn Name {Name} OpenRound (Parameters) CloseRound (Result) {Begin} (Body) {Function}]
    }
    Declared { _ => [Name {Name} (TypeIfAny)] }
    TypeIfAny {
        Colon => [Colon (Type) {Typed}]
        _ => []
    }
    Initializer {
        Equal => [Equal (Expression) {Initialized}]
        _ => []
    }
    Member {
        At => [(Attribute) (Member)]
        _ => [Name {Name} Colon (Type) {Member}]
    }
    MoreMembers {
        Comma => [Comma (LastMembers)]
        _ => []
    }
    LastMembers {
        CloseCurly => []
        _ => [(Member) (MoreMembers)]
    }
    Parameters {
        CloseRound => []
        _ => [(Parameter) (MoreParameters)]
    }
    MoreParameters {
        Comma => [Comma (Parameters)]
        _ => []
    }
    Parameter {
        At => [(Attribute) (Parameter)]
        _ => [Name {Name} Colon (Type) {Parameter}]
    }
    Result {
        Arrow => [Arrow (ResultType)]
        _ => []
    }
    ResultType {
        At => [(Attribute) (ResultType)]
        _ => [(Type) {Result}]
    }
    Attribute { _ => [At (AttributeName)] }
    AttributeName {
        Const => [Const {Attribute}]
        Diagnostic => [Diagnostic (DiagnosticControl) {DiagnosticAttribute}]
        _ => [Name {AttributeName} (AttributeArguments) {Attribute}]
    }
    AttributeArguments {
        OpenRound => [OpenRound (Arguments) CloseRound]
        _ => []
    }
};
