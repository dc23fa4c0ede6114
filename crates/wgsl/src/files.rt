// Files and terminals.

use std::io::Read;
use std::{env, fs, io};
use wgsl_report::shown::Style;

/// Reads a file; `-` is standard input.
pub fn read_file(rt: &HostRuntime, file: &str) -> io::Result<Vec<u8>> {
    if file != "-" {
        return fs::read(rt, file);
    }
    let mut bytes = Vec::new(rt.alloc());
    rt.stdin().read_to_end(&mut bytes)?;
    Ok(bytes)
}

pub fn is_folder(rt: &HostRuntime, path: &str) -> bool {
    match fs::metadata(rt, path) {
        Ok(metadata) => metadata.is_dir(),
        Err(_) => false,
    }
}

/// The files of a folder whose names end in `.wgsl`, sorted. Its folders are pushed, the last by name first.
pub fn list_folder(
    rt: &HostRuntime,
    folder: &str,
    folders: &mut Vec<String>,
) -> io::Result<Vec<String>> {
    let (mut files, mut inside) = (Vec::new(rt.alloc()), Vec::new(rt.alloc()));
    let parent = folder.trim_end_matches('/');
    for entry in fs::read_dir(rt, folder)? {
        let entry = entry?;
        let name = entry.file_name();
        if name.starts_with('.') {
            continue;
        }
        let path = format!(in rt.alloc(); "{parent}/{name}")?;
        if entry.file_type()?.is_dir() {
            inside.push(path)?;
        } else if name.ends_with(".wgsl") {
            files.push(path)?;
        }
    }
    files.sort_unstable();
    inside.sort_unstable();
    for path in inside.into_iter().rev() {
        folders.push(path)?;
    }
    Ok(files)
}

/// The style of messages, for a terminal or for something else.
pub fn style(rt: &HostRuntime, is_terminal: bool) -> Style {
    let is_plain = env::var(rt, "NO_COLOR").is_ok_and(|value| !value.is_empty());
    match (is_terminal, is_plain) {
        (false, _) => Style::Plain,
        (true, true) => Style::Caret,
        (true, false) => Style::Color,
    }
}
