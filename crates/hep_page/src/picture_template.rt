//! What all pictures have.

/// The style sheet, and the pattern of waiting.
pub const STYLE: &str =
    r##"<style>:root{--bg:#fff;--ink:#1c1f24;--soft:#5b626d;--line:#c9ced6;--cell:#0072b2;--plain:#b86e00;--wait:#ad4400;--ws:#fdeee4;--print:#00795a;--proc:#a3487c;--tick:#8d95a1}
@media(prefers-color-scheme:dark){:root{--bg:#14171b;--ink:#e8eaed;--soft:#a4abb6;--line:#3b424d;--cell:#56b4e9;--plain:#e69f00;--wait:#ff8a4c;--ws:#3a251a;--print:#35c99f;--proc:#e29cc3;--tick:#7b8492}}
@media print{:root{--bg:#fff;--ink:#000;--soft:#444;--line:#999;--cell:#0072b2;--plain:#b86e00;--wait:#ad4400;--ws:#fff;--print:#00795a;--proc:#a3487c;--tick:#777}}
text{font:12px system-ui,"Segoe UI",Roboto,Arial,sans-serif;fill:var(--soft)}.h{font-size:15px;fill:var(--ink);font-weight:650}.n{fill:var(--ink);font-weight:650}.t{font-size:10.5px;text-anchor:end}.w{fill:var(--wait)}
path{fill:none;stroke-width:2}.lane{stroke:var(--line);stroke-width:1.4}.waiting{fill:url(#hatch);stroke:var(--wait);stroke-width:.8}.birth,.born,.create,.call{stroke:var(--proc)}.birth,.born{stroke-width:1.4}.create{stroke-width:3}
.other{stroke:var(--tick)}.read,.store{stroke:var(--plain)}.read{fill:var(--bg);stroke-width:1.6}.store{fill:var(--plain);stroke:none}.take,.fill{stroke:var(--cell)}.take{fill:var(--bg)}.fill{fill:var(--cell)}.print{fill:var(--print);stroke:none}
.wait,.fault{stroke:var(--wait)}.fault,.end{stroke-width:3}.end{stroke:var(--ink)}.folded .store{stroke:var(--plain)}.folded .print{stroke:var(--print)}.folded path{fill:none;stroke-width:2}.folded .lane,.folded .birth{stroke-width:1}.folded .waiting{fill:url(#hatch);stroke-width:0}
.each .bar,.folded .sign{display:none}</style><defs><pattern id="hatch" width="6" height="6" patternUnits="userSpaceOnUse" patternTransform="rotate(45)"><rect width="6" height="6" fill="var(--ws)"/><path d="M0 0V6" stroke="var(--wait)" stroke-width="2"/></pattern>"##;

/// What the marks mean.
pub const LEGEND: &str =
    r##"<path class="fill sign" d="M16 16m-5-5h10v10h-10z"/><path class="fill bar" d="M16 22v-10"/><text x="32" y="20">fills a $</text><path class="take sign" d="M132 16m-4-4h8v8h-8z"/><path class="take bar" d="M132 22v-9"/><text x="148" y="20">takes a $</text><path class="store sign" d="M248 16m-5 0a5 5 0 1 0 10 0a5 5 0 1 0-10 0z"/><path class="store bar" d="M248 22v-6"/><text x="264" y="20">stores</text><path class="read sign" d="M364 16m-3 0a3 3 0 1 0 6 0a3 3 0 1 0-6 0z"/><path class="read bar" d="M364 22v-4"/><text x="380" y="20">reads</text><path class="print sign" d="M480 16m0-6l6 6-6 6-6-6z"/><path class="print bar" d="M480 22v-11"/><text x="496" y="20">prints</text><path class="create sign" d="M596 16m-5 0h10m-5-5v10"/><path class="create bar" d="M596 22v-7"/><text x="612" y="20">creates</text><path class="call sign" d="M16 40m-4-2l4 5 4-5"/><path class="call bar" d="M16 46v-4"/><text x="32" y="44">calls, returns</text><path class="other sign" d="M132 40m0-3v6"/><path class="other bar" d="M132 46v-3"/><text x="148" y="44">another step</text><path class="waiting" d="M242 35h16v10h-16z"/><text x="264" y="44">waits</text><path class="end sign" d="M364 40m0-7v14"/><path class="end bar" d="M364 46v-12"/><text x="380" y="44">ends</text><path class="fault sign" d="M480 40m-5-5l10 10m0-10l-10 10"/><path class="fault bar" d="M480 46v-12"/><text x="496" y="44">fault</text>"##;

/// The beginning of a picture, to its width.
pub const BEGINS: &str = r##"<svg xmlns="http://www.w3.org/2000/svg" viewBox="0 0 "##;

/// After its size.
pub const ROLE: &str = r##"" role="img" aria-labelledby="t d">"##;

/// Before the title that is seen.
pub const HEADING: &str =
    r##"<rect width="100%" height="100%" fill="var(--bg)"/><text class="h" x="8" y="24">"##;

/// Before the title, for those who listen, and before the description.
pub const TITLE: &str = r##"<title id="t">"##;

pub const DESCRIPTION: &str = r##"</title><desc id="d">"##;

/// In the title, where columns are folded.
pub const FOLDED: &str = " to a column, which shows what matters most of them";

/// Before the height of the names of a row, and before that of its columns.
pub const NAMES: &str = r##"<use href="#names" y=""##;

pub const COLUMNS: &str = r##"<svg x="112" y=""##;

/// After what is shown of the columns.
pub const SHOWN: &str = r##""><use href="#run"/></svg>"##;

/// Around the names of all lanes, and before the height of one.
pub const ALL_NAMES: &str = r##"<g id="names">"##;

pub const NAME: &str = r##"<text x="36" y=""##;

pub const DEFINED: &str = "</g></defs>";

/// Before the height of what is waited for.
pub const WANT: &str = r##"<text class="w" x="8" y=""##;
