// The constant lines of the page's head, written: how it looks.
// Promised: every byte of the lent buffer, by the pieces of crates/page_spec.
#![tactic(auto)]

ghost use Rattle.std.specs.List.{flat_map};
ghost use Rattle.write_items.specs.Written.{Written};
ghost use Rattle.page_spec.specs.Piece.{page_text};
ghost use Rattle.page_spec.specs.Style.{look_in_colour, look_of_text, look_of_candidates, look_of_parts, look_in_print};

use write_items::write_key;

// Constant lines, one after the other.
fn write_all(t: &mut [u8], at: usize, lines: &[&[u8]]) -> usize
    ensures { Written t.old (flat_map (λ l. l.now) lines.now) t.new at result }
{
    let mut end = at;
    for line in lines {
        end = write_key(t, end, line);
    }
    end
}

pub fn write_colours(t: &mut [u8], at: usize) -> usize
    ensures { Written t.old (page_text look_in_colour) t.new at result }
{
    let lines: [&[u8]; 5] = [
        b"<style>\n:root{color-scheme:light dark;--ink:#1c1b19;--soft:#5b5750;--line:#d8d3c8;--paper:#fffdf8;--desk:#f1ede4;--at:#fde8e4;--at-ink:#8c1d18}\n",
        b":root{--done:#1b6b3a;--open:#8a5a00;--refused:#a3231c;--fault:#6a3d9a;--shut:#4a5560;--link:#1f4e8c}\n",
        b"@media(prefers-color-scheme:dark){:root{--ink:#ece8df;--soft:#aea89b;--line:#45413a;--paper:#23211d;--desk:#191815;--at:#4a221f;--at-ink:#ffb4a8}\n",
        b":root{--done:#6fd495;--open:#f0b95a;--refused:#ff9a8d;--fault:#c9a7f2;--shut:#b3bfca;--link:#9cc3ff}}\n",
        b"*{box-sizing:border-box}html{font:100%/1.5 Georgia,\"DejaVu Serif\",serif;color:var(--ink);background:var(--desk)}\n",
    ];
    write_all(t, at, &lines)
}

pub fn write_text_look(t: &mut [u8], at: usize) -> usize
    ensures { Written t.old (page_text look_of_text) t.new at result }
{
    let lines: [&[u8]; 6] = [
        b"body{margin:0 auto;max-width:76rem;padding:1.5rem}\n",
        b"h1{font-size:1.9rem;line-height:1.2}h2{font-size:1.1rem}h1,h2{margin:0;overflow-wrap:anywhere}\n",
        b"a{color:var(--link)}a:focus-visible{outline:3px solid var(--link)}.skip{position:absolute;left:-99rem}.skip:focus{position:static}\n",
        b"code,td,.lines th,.seal{font-family:\"DejaVu Sans Mono\",\"Liberation Mono\",monospace;font-size:.84rem}\n",
        b".seal{color:var(--soft);overflow-wrap:anywhere}table{border-collapse:collapse}\n",
        b"caption{text-align:left;font:italic .85rem Georgia,serif;color:var(--soft);padding:.2rem 0}\n",
    ];
    write_all(t, at, &lines)
}

pub fn write_candidates_look(t: &mut [u8], at: usize) -> usize
    ensures { Written t.old (page_text look_of_candidates) t.new at result }
{
    let lines: [&[u8]; 5] = [
        b"th,td{text-align:left;vertical-align:top;padding:.1rem .5rem}td{overflow-wrap:anywhere}.counts th,.counts td{border-bottom:1px solid var(--line)}\n",
        b".counts .n{text-align:right}article{background:var(--paper);border:1px solid var(--line);border-radius:.4rem;padding:.8rem 1.2rem;margin:1rem 0}\n",
        b"article{break-inside:avoid;content-visibility:auto;contain-intrinsic-size:auto 22rem}.g0{contain-intrinsic-size:auto 5rem}p{margin:.2rem 0 .6rem}\n",
        b".why{font-weight:700;color:var(--refused)}.g0 .why{color:var(--done)}.g39 .why{color:var(--open)}.g40 .why{color:var(--shut)}\n",
        b".g1 .why,.g2 .why,.g3 .why,.g4 .why,.g5 .why{color:var(--fault)}\n",
    ];
    write_all(t, at, &lines)
}

pub fn write_parts_look(t: &mut [u8], at: usize) -> usize
    ensures { Written t.old (page_text look_of_parts) t.new at result }
{
    let lines: [&[u8]; 6] = [
        b".two{display:grid;grid-template-columns:minmax(0,1fr) minmax(0,1.15fr);gap:0 1.6rem;align-items:start}.two table{width:100%}\n",
        b".lines th{font-weight:400;color:var(--soft);text-align:right;width:4rem}.lines i{font:italic .85rem Georgia,serif}\n",
        b".lines .at th,.lines .at td{background:var(--at);color:var(--at-ink);font-weight:700}.lines .at th::before{content:\"\\25B6\\A0\"}\n",
        b".state th,.state td{border:1px solid var(--line)}.state th{font:700 .78rem system-ui,\"DejaVu Sans\",sans-serif;background:var(--desk)}\n",
        b".signs{display:grid;grid-template-columns:minmax(0,1fr) minmax(0,1fr);gap:1rem;margin-top:.8rem}.signs b{display:block;color:var(--ink)}\n",
        b".signs p{border:1px dashed var(--soft);border-radius:.3rem;padding:.3rem .6rem 1.5rem;font-size:.8rem;color:var(--soft);margin:0}\n",
    ];
    write_all(t, at, &lines)
}

pub fn write_print_look(t: &mut [u8], at: usize) -> usize
    ensures { Written t.old (page_text look_in_print) t.new at result }
{
    let lines: [&[u8]; 7] = [
        b"tr:target{background:var(--at)}@media(max-width:52rem){.two,.signs{grid-template-columns:minmax(0,1fr)}}@page{size:A4;margin:14mm 12mm 16mm}\n",
        b"@media print{:root{--ink:#000;--soft:#333;--line:#888;--paper:#fff;--desk:#fff;--at:#e8e8e8;--at-ink:#000;--done:#000;--open:#000}\n",
        b":root{--refused:#000;--fault:#000;--shut:#000;--link:#000}html{font-size:8.5pt}body{padding:0;max-width:none}\n",
        b"article{margin:4mm 0 0;content-visibility:visible}\n",
        b".skip,.filters{display:none}a{text-decoration:none}.signs{grid-template-columns:minmax(0,1fr) minmax(0,1fr)}\n",
        b".two{grid-template-columns:minmax(0,1fr) minmax(0,1.3fr)}.signs p{padding-bottom:12mm}}\n</style>\n</head>\n<body>\n",
        b"<a class=\"skip\" href=\"#all\">Skip to the candidates</a>\n<header>\n<h1>Markers' page: ",
    ];
    write_all(t, at, &lines)
}
