// Directives (WGSL, "Directives").

use crate::extension::{enabled, required};
use crate::fault::{Cause, Expected, ExtensionKind, Fault};
use crate::meant::is_severity;
use crate::parts::split_first;
use crate::scope::Extensions;
use crate::text::Text;
use wgsl_reader::mark::Mark;
use wgsl_reader::read::Event;

/// Notes the extensions of a directive. Returns what is wrong with it. Of events of another kind it notes nothing.
pub fn read_directive(text: Text, extensions: &mut Extensions, events: &[Event]) -> Option<Fault> {
    match events.last()?.mark {
        Mark::Enable => read_extensions(text, extensions, events, ExtensionKind::Enabled),
        Mark::Requires => read_extensions(text, extensions, events, ExtensionKind::Required),
        Mark::DiagnosticDirective => severity_fault(text, events),
        _ => None,
    }
}

fn read_extensions(
    text: Text,
    extensions: &mut Extensions,
    events: &[Event],
    kind: ExtensionKind,
) -> Option<Fault> {
    for event in events {
        if event.mark == Mark::Extension {
            let name = text.token_before(event.at);
            let is_known = match kind {
                ExtensionKind::Enabled => enabled(extensions, text.word(name)),
                ExtensionKind::Required => required(extensions, text.word(name)),
            };
            if !is_known {
                return Some(Fault {
                    at: name.at,
                    cause: Cause::UnknownExtension(kind),
                });
            }
        }
    }
    None
}

/// What is wrong with the severity of a diagnostic filter (WGSL, "Diagnostic Filtering").
pub fn severity_fault(text: Text, events: &[Event]) -> Option<Fault> {
    let (first, _) = split_first(events)?;
    let severity = text.token_before(first.at);
    if is_severity(text.word(severity)) {
        return None;
    }
    Some(Fault {
        at: severity.at,
        cause: Cause::Expected(Expected::Severity),
    })
}
