// Which keyword a misspelled word may have meant.

use crate::prelude::*;
use wgsl_reader::read::read;
use wgsl_reader::token::Token;
use wgsl_reader::word::WORDS;
use wgsl_spelling::word::word;
use wgsl_syntax::nearest::Nearest;

/// The keyword that a misspelled word may have meant, and the index of that word: of `retrun x;` it is `return`. The word is
/// the token that can't stand where a declaration is misread, or the first one of that statement. None if no keyword is near
/// it with which more is read.
pub fn meant_at<'t>(
    alloc: Global,
    misread: Misread,
    tokens: &[Token],
    text: &'t str,
) -> Result<Option<(usize, &'t str)>, AllocError> {
    if misread.from > misread.at || misread.at >= tokens.len() {
        return Ok(None);
    }
    for index in [misread.at, first_of_statement(misread, tokens)] {
        if let Some(keyword) = keyword_at(alloc, index, misread, tokens, text)? {
            return Ok(Some((index, keyword)));
        }
    }
    Ok(None)
}

/// The index of the first token of the statement or the declaration in which one can't stand.
fn first_of_statement(misread: Misread, tokens: &[Token]) -> usize {
    let front = tokens.get(misread.from..misread.at).unwrap_or(&[]);
    let mut first = misread.from;
    for (index, token) in front.iter().enumerate() {
        if matches!(
            token.kind,
            Kind::Semicolon | Kind::OpenCurly | Kind::CloseCurly
        ) {
            first = misread.from.saturating_add(index).saturating_add(1);
        }
    }
    first
}

/// The nearest keyword to a word with which more is read.
fn keyword_at<'t>(
    alloc: Global,
    index: usize,
    misread: Misread,
    tokens: &[Token],
    text: &'t str,
) -> Result<Option<&'t str>, AllocError> {
    let misspelled = match tokens.get(index) {
        Some(token) if matches!(token.kind, Kind::Name | Kind::Reserved) => word(text, *token),
        _ => return Ok(None),
    };
    let mut nearest = Nearest::to(misspelled);
    for (_, kept) in WORDS {
        for (keyword, kind) in *kept {
            let mut offered = nearest;
            offered.offer(*keyword);
            if offered.name != nearest.name && reads_on(alloc, *kind, index, misread, tokens)? {
                nearest = offered;
            }
        }
    }
    Ok(nearest.name)
}

/// Whether the token that can't stand there, and the one behind the word, can be read if the word is a token of this kind.
fn reads_on(
    alloc: Global,
    kind: Kind,
    index: usize,
    misread: Misread,
    tokens: &[Token],
) -> Result<bool, AllocError> {
    let behind = misread.at.max(index.saturating_add(1)).saturating_add(1);
    let mut changed = Vec::new(alloc);
    changed.extend_from_slice(
        tokens
            .get(misread.from..behind.min(tokens.len()))
            .unwrap_or(&[]),
    )?;
    if let Some(token) = changed.get_mut(index.saturating_sub(misread.from)) {
        token.kind = kind;
    }
    match read(alloc, misread.rule, &changed, 0)? {
        Ok(_) => Ok(true),
        Err(at) => Ok(at == changed.len()),
    }
}
