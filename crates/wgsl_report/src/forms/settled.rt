// Characters that no normalization of Unicode changes, reorders or joins with others.

/// The first and the last of such letters beyond ASCII, for many living scripts.
const SETTLED: &[(char, char)] = &[
    // Latin.
    ('\u{C0}', '\u{D6}'),
    ('\u{D8}', '\u{F6}'),
    ('\u{F8}', '\u{131}'),
    ('\u{134}', '\u{13E}'),
    ('\u{141}', '\u{148}'),
    ('\u{14A}', '\u{17E}'),
    ('\u{180}', '\u{1C3}'),
    ('\u{1E00}', '\u{1E99}'),
    ('\u{1E9C}', '\u{1EFF}'),
    // Greek and Cyrillic.
    ('\u{386}', '\u{386}'),
    ('\u{388}', '\u{38A}'),
    ('\u{38C}', '\u{38C}'),
    ('\u{38E}', '\u{3A1}'),
    ('\u{3A3}', '\u{3CF}'),
    ('\u{400}', '\u{481}'),
    ('\u{48A}', '\u{52F}'),
    // Armenian, Hebrew, Arabic and Georgian.
    ('\u{531}', '\u{556}'),
    ('\u{560}', '\u{586}'),
    ('\u{5D0}', '\u{5EA}'),
    ('\u{620}', '\u{64A}'),
    ('\u{660}', '\u{669}'),
    ('\u{679}', '\u{6D3}'),
    ('\u{10D0}', '\u{10FA}'),
    // Devanagari and Thai.
    ('\u{900}', '\u{927}'),
    ('\u{92A}', '\u{930}'),
    ('\u{935}', '\u{93B}'),
    ('\u{93D}', '\u{94C}'),
    ('\u{E01}', '\u{E32}'),
    ('\u{E34}', '\u{E37}'),
    ('\u{E40}', '\u{E46}'),
    // Japanese, Chinese and Korean.
    ('\u{3041}', '\u{3096}'),
    ('\u{30A1}', '\u{30FA}'),
    ('\u{30FC}', '\u{30FE}'),
    ('\u{3400}', '\u{4DBF}'),
    ('\u{4E00}', '\u{9FFF}'),
    ('\u{AC00}', '\u{D7A3}'),
];

/// Whether a character is such a letter. Languages compare names by NFC or NFKC, WGSL character by character.
pub fn is_settled(letter: char) -> bool {
    letter.is_ascii()
        || SETTLED
            .iter()
            .any(|range| range.0 <= letter && letter <= range.1)
}
