//! Tokens, as `START CLASS TEXT` a line.
use super::support::prints;
use hip_uses::tokens::tokens;
use hipstr::string::HipStr;
use hipstr::{Backend, Rc, Unique};
use std::alloc::{AllocError, Global};

const ROWS: [(&str, &str); 5] = [
    ("", ""),
    (
        "let x = 42;",
        "0 Word \"let\"\n3 Space \" \"\n4 Word \"x\"\n5 Space \" \"\n6 Mark \"=\"\n7 Space \" \"\n8 Digits \"42\"\n10 Mark \";\"\n",
    ),
    ("caf\u{e9}_1", "0 Word \"caf\u{e9}_\"\n6 Digits \"1\"\n"),
    ("\u{1f600}!?", "0 Word \"\u{1f600}\"\n4 Mark \"!?\"\n"),
    (
        "a\t\n b",
        "0 Word \"a\"\n1 Space \"\\t\\n \"\n4 Word \"b\"\n",
    ),
];

fn shown<B: Backend>(alloc: Global, text: &str) -> Result<String, AllocError> {
    let mut printed = String::new(alloc);
    let source = HipStr::<B>::from_str(alloc, text)?;
    for token in &tokens(alloc, &source)? {
        write!(
            printed,
            "{} {:?} {:?}\n",
            token.start, token.class, token.text
        )?;
    }
    Ok(printed)
}

#[test]
fn cuts_runs(rt: HostRuntime) {
    let alloc = rt.alloc();
    for (text, wanted) in ROWS {
        prints(&rt, text, &shown::<Rc>(alloc, text), wanted);
        prints(&rt, text, &shown::<Unique>(alloc, text), wanted);
    }
}
