ghost use Rattle.std.specs.Prelude.{◌≡◌, ℕ, List, ◌∷◌, bytes_eq};
ghost use Rattle.std.specs.List.{list_any, list_all};
ghost use Rattle.vl_names.specs.Reserved.{reserved};
ghost use Rattle.vl_names.specs.Identifiers.{begins_name, continues_name, is_identifier};

/// The reserved words (IEEE 1364-2005, annex B) that begin with each letter from `a` to `z`.
const RESERVED: [&[&str]; 26] = [
    &["always", "and", "assign", "automatic"],
    &["begin", "buf", "bufif0", "bufif1"],
    &["case", "casex", "casez", "cell", "cmos", "config"],
    &["deassign", "default", "defparam", "design", "disable"],
    &[
        "edge",
        "else",
        "end",
        "endcase",
        "endconfig",
        "endfunction",
        "endgenerate",
        "endmodule",
        "endprimitive",
        "endspecify",
        "endtable",
        "endtask",
        "event",
    ],
    &["for", "force", "forever", "fork", "function"],
    &["generate", "genvar"],
    &["highz0", "highz1"],
    &[
        "if", "ifnone", "incdir", "include", "initial", "inout", "input", "instance", "integer",
    ],
    &["join"],
    &[],
    &["large", "liblist", "library", "localparam"],
    &["macromodule", "medium", "module"],
    &[
        "nand",
        "negedge",
        "nmos",
        "nor",
        "noshowcancelled",
        "not",
        "notif0",
        "notif1",
    ],
    &["or", "output"],
    &[
        "parameter",
        "pmos",
        "posedge",
        "primitive",
        "pull0",
        "pull1",
        "pulldown",
        "pullup",
        "pulsestyle_ondetect",
        "pulsestyle_onevent",
    ],
    &[],
    &[
        "rcmos", "real", "realtime", "reg", "release", "repeat", "rnmos", "rpmos", "rtran",
        "rtranif0", "rtranif1",
    ],
    &[
        "scalared",
        "showcancelled",
        "signed",
        "small",
        "specify",
        "specparam",
        "strong0",
        "strong1",
        "supply0",
        "supply1",
    ],
    &[
        "table", "task", "time", "tran", "tranif0", "tranif1", "tri", "tri0", "tri1", "triand",
        "trior", "trireg",
    ],
    &["unsigned", "use", "uwire"],
    &["vectored"],
    &["wait", "wand", "weak0", "weak1", "while", "wire", "wor"],
    &["xnor", "xor"],
    &[],
    &[],
];

/// Whether the bytes are a simple identifier (IEEE 1364-2005, 3.7): a letter or `_`, and then letters,
/// digits and `_`, and no reserved word.
pub fn is_identifier(name: &[u8]) -> bool
    ensures { result ≡ is_identifier name.now }
{
    match name {
        [] => false,
        [first, others @ ..] => begins_name(*first) && continue_name(others) && !is_reserved(name),
    }
}

fn begins_name(byte: u8) -> bool
    ensures { result ≡ begins_name byte }
{
    byte.is_ascii_alphabetic() || byte == b'_'
}

fn continue_name(bytes: &[u8]) -> bool
    ensures { result ≡ list_all continues_name bytes.now }
{
    bytes
        .iter()
        .all(|byte| byte.is_ascii_alphanumeric() || *byte == b'_')
}

fn is_reserved(word: &[u8]) -> bool
    ensures { result ≡ list_any (bytes_eq word.now) reserved }
{
    match word {
        [] => false,
        [first, ..] => is_among(word, reserved_words(*first)),
    }
}

/// The reserved words that begin with the byte.
fn reserved_words(first: u8) -> &'static [&'static str]
    ensures { (others : List ℕ) → list_any (λ word. bytes_eq (first ∷ others) word.now) result.now
        ≡ list_any (bytes_eq (first ∷ others)) reserved }
{
    match first {
        b'a'..=b'z' => RESERVED[usize::from(first - b'a')],
        _ => &[],
    }
}

fn is_among(word: &[u8], words: &[&str]) -> bool
    ensures { result ≡ list_any (λ other. bytes_eq word.now other.now) words.now }
{
    words.iter().any(|other| word == other.as_bytes())
}
