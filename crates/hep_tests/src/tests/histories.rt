//! The text of a history, read, made again and written.

use super::cells::ADDED;
use super::{image_from, source_of};
use hep_output::output_text;
use hep_run::{history_replay as replay, read_text, write_text};
use std::alloc::Global;
use std::process::Abort;

// The first entries are those of five choices.
const TEXT: &[u8] = b"1 1
1 1
1 1
2 1
3 0
1 0
2 1
2 1
3 1
2 1
3 1
1 1
2 1
3 1
1 1
3 1
1 1
3 1
1 1
1 1
1 1
1 1
";

/// A history that is read, made again and written has the same bytes.
pub fn same_bytes(rt: &impl Abort, alloc: Global) {
    let image = image_from(rt, alloc, &source_of(rt, alloc, &ADDED));
    let entries = read_text(alloc, TEXT).expect(rt, "no history");
    let core = replay(alloc, image, 14, &entries).expect(rt, "no core");
    let output = output_text(alloc, core.output()).expect(rt, "no memory");
    assert!(rt; output.as_slice() == b" 2\n".as_slice());
    let text = write_text(alloc, core.history()).expect(rt, "no memory");
    assert!(rt; text.as_slice() == TEXT);
}
