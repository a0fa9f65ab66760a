//! Programs that look random, and certificates of them, right and wrong.

use crate::numbers::Numbers;
use crate::pieces::Text;
use std::alloc::{AllocError, Global};

// What may stand for a letter or sign that has a row here; those in it stand for further texts.
static CHOICES: [(u8, &[&str]); 39] = [
    // At most seven statements.
    (
        b'P',
        &["", "S", "SS", "SSS", "SSSS", "SSSSS", "SSSSSS", "SSSSSSS"],
    ),
    (
        b'S',
        &[
            "writeln(IW); ",
            "writeln; ",
            "write(BW, a); ",
            "D := B; ",
            "D := B; ",
            "V := I; ",
            "V := I; ",
            "V := V + 1; ",
            "V := V - 1; ",
            "F := Y; ",
            "h := E; ",
            "k := N; ",
            "! := ^; ",
            "! := ^; ",
            "with w[G] do begin ` end; ",
            "with w[1] do begin ` end; ",
            "with w[1], w[2] do begin ` end; ",
            "read{; ",
            "read{; ",
            "readln{; ",
            "readln; ",
            "if not eof then begin S end; ",
            "while not eof do begin readln; Q end; ",
            "q(J, V); ",
            "q(J, V); ",
            "write(YW, 'it''s'W); ",
            "if C then X; ",
            "if C then X else X; ",
            "while C do X; ",
            "while V < 9 do begin V := V + 1; S end; ",
            "repeat SQ until C; ",
            "for i := G Z G do begin K end; ",
            "for j := G Z G do begin M end; ",
            "case V of A end; ",
            "case I of A end; ",
            "case B of true: X; false: X end; ",
            "case Y of 'a', 'm': X; 'b', '''': X end; ",
            "case E of red: X; green, blue: X end; ",
        ],
    ),
    // Variables that are read, and a piece of an input.
    (
        b'{',
        &[
            "(V)",
            "(V)",
            "(input, V)",
            "(V, V)",
            "(F)",
            "(k)",
            "(w[G].x)",
            "(V, w[V].x, F)",
        ],
    ),
    (
        b'}',
        &[
            "1 ",
            "2 ",
            "1\n",
            "2\n",
            "3 ",
            "-7 ",
            "12 ",
            "400 ",
            "9",
            " 5\n",
            "\n",
            "+6 ",
            "8 a\n",
            "x",
            "ab\n",
            "-",
            "99999999999 ",
            "\u{e9}",
        ],
    ),
    // A statement in a branch or a loop, and at most two more behind the first of a loop.
    (
        b'X',
        &["begin Q end", "begin S end", "begin V := V - 1; Q end"],
    ),
    (b'Q', &["", "", "S"]),
    // The way of a for statement; statements of one over i, in which no other is over i, and of one over j in it.
    (b'Z', &["to", "to", "downto"]),
    (b'K', &["", "H", "HH"]),
    (
        b'H',
        &[
            "M",
            "V := i; ",
            "writeln(i:3); ",
            "if C then begin H end; ",
            "for j := G Z G do begin M end; ",
            "for j := i Z G do begin M end; ",
        ],
    ),
    (
        b'M',
        &[
            "V := V - j; ",
            "write(j); ",
            "V := I; ",
            "V := V + 1; ",
            "q(j, V); ",
            "",
        ],
    ),
    // Branches of a case.
    (
        b'A',
        &[
            "1: X",
            "0: X; 2, -3: X;",
            "3: X; 7, 8, 9: X; 4: X",
            "-1, 0, 1, 2, 3: X",
        ],
    ),
    // A width.
    (b'W', &[":3", ":a", ":b - 1", "", "", ""]),
    // A condition: often a relation of two bounds.
    (
        b'C',
        &["B", "GRG", "GRG", "GRG", "(GRG) L (GRG)", "not (GRG)"],
    ),
    (
        b'G',
        &["V", "V", "V + 1", "V - 2", "0", "3", "(-1)", "maxint"],
    ),
    // An expression of type integer, of one or two operators, and one of one operator at most.
    (
        b'I',
        &[
            "N", "abs(J)", "sqr(J)", "(-J)", "(JOJ)", "(JOJ)", "(JOJ)", "(JOJ)",
        ],
    ),
    (
        b'J',
        &[
            "N", "abs(N)", "sqr(N)", "(-N)", "(NON)", "(NON)", "(NON)", "(NON)",
        ],
    ),
    (
        b'N',
        &[
            "maxint", "1", "(2 - 3)", "46341", "a", "i", "V", "V", "k", "succ(k)", "pred(V)",
            "ord(Y)", "ord(E)", "s(V)",
        ],
    ),
    (b'V', &["a", "b", "c"]),
    // Of type char, and of an enumerated type.
    (b'F', &["f", "g"]),
    (
        b'Y',
        &[
            "F",
            "F",
            "F",
            "'a'",
            "''''",
            "chr(V)",
            "chr(ord(F) + 1)",
            "succ(F)",
            "pred(F)",
        ],
    ),
    // A set variable, a set of 0 to 9, its members, and statements in a with.
    (b'!', &["u", "v"]),
    (
        b'^',
        &[
            "!",
            "!",
            "[]",
            "[_]",
            "[_]",
            "(! + [_])",
            "(! * [_])",
            "(! - [N])",
            "(! + !)",
        ],
    ),
    (
        b'_',
        &["N", "k", "N..N", "0..V", "k, 3", "V..9, 2", "i, i..9"],
    ),
    (
        b'`',
        &[
            "x := J; ",
            "x := x + 1; ",
            "y := ^; ",
            "y := y + [x]; ",
            "if x in y then begin S end; ",
            "V := x; ",
            "! := y; ",
            "S",
            "",
        ],
    ),
    (b'E', &["h", "h", "red", "blue", "succ(h)", "pred(h)"]),
    (b'O', &[" + ", " - ", " * ", " div ", " mod ", " - "]),
    // An expression of type Boolean, of one or two operators, and one of one operator at most.
    (
        b'B',
        &[
            "T",
            "not U",
            "(ULU)",
            "odd(J)",
            "(JRJ)",
            "(JRJ)",
            "(YRY)",
            "(ERE)",
            "('ab' R 'ac')",
            "(N in ^)",
            "(^ = ^)",
            "(^ <= ^)",
        ],
    ),
    (b'U', &["T", "not T", "(TLT)", "odd(J)", "(JRJ)", "(JRJ)"]),
    (b'T', &["false", "e", "d", "d", "eof", "eoln"]),
    (b'D', &["d", "e"]),
    (b'L', &[" and ", " or "]),
    (b'R', &[" = ", " <> ", " < ", " > ", " <= ", " >= "]),
    // A statement of the function s, and an expression in it.
    (
        b'$',
        &[
            "",
            "if m > 0 then s := s(m - 1); ",
            "if C then s := ~; ",
            "c := ~; ",
            "m := m div 2; ",
        ],
    ),
    (b'~', &["m", "V", "(mOV)", "(mON)", "J"]),
    // Statements of the procedure q, and of the procedure r in it; an expression in both, and a variable.
    (b'@', &["?", "??", "???"]),
    (
        b'?',
        &[
            "#",
            "#",
            "r; ",
            "if n > 0 then q(n - 1, &); ",
            "if C then begin # end; ",
            "while n > 0 do begin n := n - 1; # end; ",
        ],
    ),
    (
        b'#',
        &["t := %; ", "V := %; ", "write(%:3); ", "n := n - 1; ", ""],
    ),
    (b'%', &["n", "t", "V", "(nOt)", "(tOV)", "s(n)", "J"]),
    (b'&', &["t", "t", "V"]),
];

// One of the texts for a letter or sign, if there are any.
fn choice(numbers: &mut Numbers, letter: u8) -> Option<&'static str> {
    for (own, texts) in &CHOICES {
        if *own == letter && !texts.is_empty() {
            return Some(texts[numbers.below(texts.len())]);
        }
    }
    None
}

const VARIABLES: &str =
    "program p(input, output); var a, b, c: integer; d, e: Boolean; i, j: integer;
f, g: char; h: (red, green, blue); k: 1..9; u, v: set of 0..9;
w: array [1..2] of record x: integer; y: set of 0..9 end;
";

const ROUTINES: &str = "function s(m: integer): integer; begin s := ~; $$end;
procedure q(n: integer; var t: integer); procedure r; begin ##end; begin @end;
";

// The first of the program's own statements; none else begins so.
const START: &[u8] = b"begin a := 3; b := 7; ";

const BODY: &str =
    "begin a := 3; b := 7; d := true; e := odd(a); f := 'a'; g := 'm'; h := red; k := 1; u := [];
v := [1..3]; w[1].x := 2; w[1].y := []; Pend.";

// A program of a few statements over five integers and two Booleans, two characters, a colour, a digit, two sets and
// two records, with a function and two procedures, one in the other; it reads now and then.
pub(crate) fn program(alloc: Global, numbers: &mut Numbers) -> Result<Vec<u8>, AllocError> {
    let mut text = Text::new(alloc);
    text.put(VARIABLES);
    // What is still to be written, its end first.
    let mut rest = Text::new(alloc);
    rest.put_turned(BODY);
    rest.put_turned(ROUTINES);
    for _ in 0..10_000 {
        let Some(byte) = rest.bytes.pop() else {
            break;
        };
        match choice(numbers, byte) {
            Some(chosen) => rest.put_turned(chosen),
            None => text.put_byte(byte),
        }
    }
    text.refused = text.refused.or(rest.refused);
    text.finish()
}

// At most so many pieces of an input.
const PIECES: usize = 24;

// An input for a program: numbers in the main, some letters, signs and line ends.
pub(crate) fn input(alloc: Global, numbers: &mut Numbers) -> Result<Vec<u8>, AllocError> {
    let mut text = Text::new(alloc);
    for _ in 0..numbers.below(PIECES) {
        if let Some(piece) = choice(numbers, b'}') {
            text.put(piece);
        }
    }
    text.finish()
}

// Where the program's own statements begin.
fn start(source: &[u8]) -> usize {
    source
        .windows(START.len())
        .position(|piece| piece == START)
        .unwrap_or(0)
}

// How many loops a program of these has: their words stand for nothing else in it.
fn loops(source: &[u8]) -> usize {
    let mut found = 0usize;
    for word in [b"while ".as_slice(), b"repeat ", b"for "] {
        found = found.saturating_add(
            source
                .windows(word.len())
                .filter(|piece| *piece == word)
                .count(),
        );
    }
    found
}

// How a line ends that claims a range: with its least and its greatest number.
const RANGES: [&str; 8] = [
    " -2147483647 2147483647\n",
    " -2147483647 2147483646\n",
    " -2147483646 2147483647\n",
    " 0 9\n",
    " -1 9\n",
    " 0 2147483647\n",
    " -2 3\n",
    " 3 3\n",
];

// What a section of a block may say: the pair of each root with a variable parameter, if there is one; the roots that
// change; those of which it may say that they are defined at the begin; the result, if it has one.
struct Section {
    parameter: Option<usize>,
    changes: &'static [usize],
    entries: &'static [usize],
    result: Option<usize>,
}

// By block, from 1: of s, of q and of r. Roots from 14: the result and m of s, then n and t of q.
static SECTIONS: [Section; 3] = [
    Section {
        parameter: None,
        changes: &[2, 15],
        entries: &[0, 1],
        result: Some(14),
    },
    Section {
        parameter: Some(17),
        changes: &[0, 1, 2, 16, 17],
        entries: &[0, 1, 17],
        result: None,
    },
    Section {
        parameter: None,
        changes: &[0, 1, 2, 16, 17],
        entries: &[0, 1, 17],
        result: None,
    },
];

// A certificate for a program: of each block which names may be one variable, what changes and a few facts, and of each
// loop what may change and a few facts, now and then one thing less.
pub(crate) fn certificate(
    alloc: Global,
    numbers: &mut Numbers,
    source: &[u8],
) -> Result<Vec<u8>, AllocError> {
    let mut text = Text::new(alloc);
    text.put("pcert 1\n");
    let all = loops(source);
    // The loops of q, which stand first, and then the program's own.
    let inner = loops(&source[..start(source).min(source.len())]);
    if inner < all {
        text.put("proc 0\n");
    }
    for number in inner..all {
        put_changes(numbers, &mut text, number, 14);
        put_facts(numbers, &mut text);
    }
    for (place, section) in SECTIONS.iter().enumerate() {
        text.put_line("proc ", place + 1);
        put_section(numbers, &mut text, section);
        if section.parameter.is_some() {
            for number in 0..inner {
                put_changes(numbers, &mut text, number, 18);
                if numbers.below(5) == 0 {
                    put_facts(numbers, &mut text);
                }
            }
        }
    }
    text.finish()
}

// What a section says before its loops.
fn put_section(numbers: &mut Numbers, text: &mut Text, section: &Section) {
    let forgotten = numbers.below(200);
    if let Some(parameter) = section.parameter {
        for root in 0..3usize {
            if root + 100 != forgotten {
                text.put_number("alias v", root);
                text.put_line(" v", parameter);
            }
        }
    }
    for root in section.changes {
        if *root != forgotten {
            text.put_line("change v", *root);
        }
    }
    for root in section.entries {
        let often = if *root < 2 { 7 } else { 1 };
        if numbers.below(8) < often {
            text.put_line("entry defined v", *root);
        }
    }
    if let Some(root) = section.result
        && numbers.below(25) == 0
    {
        text.put_number("exit range v", root);
        text.put(RANGES[numbers.below(8)]);
    }
}

// The line of a loop, and what it may change; roots from `limit` on aren't its own.
fn put_changes(numbers: &mut Numbers, text: &mut Text, number: usize, limit: usize) {
    text.put_line("loop ", number);
    let forgotten = numbers.below(100);
    for root in 0..limit {
        // The sixth and the seventh are control variables, and two belong to s.
        if ![5, 6, 14, 15, forgotten].contains(&root) {
            text.put_line("change v", root);
        }
    }
}

fn put_facts(numbers: &mut Numbers, text: &mut Text) {
    for path in ["v0", "v1", "v2", "v11", "v12", "v13[].x", "v13[].y"] {
        if numbers.below(12) == 0 {
            text.put("fact range ");
            text.put(path);
            text.put(RANGES[numbers.below(8)]);
        }
    }
    for root in 0..14usize {
        if numbers.below(12) == 0 {
            text.put_line("fact defined v", root);
        }
    }
    for root in 0..3usize {
        if numbers.below(20) == 0 {
            text.put_number("fact order v", root);
            text.put_number(" v", numbers.below(3));
            text.put(" 1\n");
        }
    }
}
