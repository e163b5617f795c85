//! The style of a page and its script, and what allows them.
//!
//! A page allows itself no style and no script but these two, by their digests, and fetches nothing (Content Security Policy
//! Level 3, section 2.3.1).

/// The style: what lies between `<style>` and `</style>`.
pub const STYLE: &str = r#"
:root{color-scheme:light dark;--page:#fff;--text:#1c2126;--quiet:#57606a;--line:#d0d7de;--strong:#8c959f;--soft:#f3f5f7;
--change:#1f4e8c;--on-change:#fff;--change-soft:#e6effa;--change-ink:#173e70;
--learn:#0b6b5d;--on-learn:#fff;--learn-soft:#e0f3ef;--learn-ink:#074b41;
--bad:#b3261e;--bad-soft:#fdeae8;--bad-ink:#8c1d18;--monitor:#7a3fa0;--time:#8a5000;--good:#1a6b36;--good-soft:#e4f4e8;--link:#0b57a4}
@media screen and (prefers-color-scheme:dark){:root{--page:#14181d;--text:#e6e9ed;--quiet:#a7b0ba;--line:#333b45;--strong:#6b7683;--soft:#1c2229;
--change:#8ab8ff;--on-change:#0a1a30;--change-soft:#1a2b43;--change-ink:#c3daff;
--learn:#66d1bf;--on-learn:#05231d;--learn-soft:#12322c;--learn-ink:#b8f0e5;
--bad:#ff8a80;--bad-soft:#45171a;--bad-ink:#ffd3cf;--monitor:#cfa6f5;--time:#e5b25d;--good:#7fd896;--good-soft:#14301c;--link:#8ab8ff}}
*{box-sizing:border-box}
html{scroll-padding-top:4.5rem}
body{margin:0 auto;padding:1.25rem 1.5rem 3rem;max-width:112rem;background:var(--page);color:var(--text);font:14px/1.45 system-ui,"Segoe UI",Roboto,"Liberation Sans",Arial,sans-serif}
h1{font-size:1.45rem;line-height:1.2;margin:0 0 .75rem}
h2{font-size:1.12rem;margin:2rem 0 .4rem}
p{margin:.35rem 0;max-width:62rem}
code,pre{font:12.5px/1.45 ui-monospace,SFMono-Regular,Menlo,Consolas,"DejaVu Sans Mono","Liberation Mono",monospace}
a{color:var(--link)}
:focus-visible{outline:3px solid var(--link);outline-offset:2px}
.verdict{border:2px solid var(--good);border-left-width:10px;background:var(--good-soft);border-radius:6px;padding:.6rem .9rem;margin:0 0 .8rem}
.verdict.no{border-color:var(--bad);background:var(--bad-soft)}
.verdict strong{font-size:1.2rem}
.verdict ul{margin:.3rem 0;padding-left:1.3rem}
ul.facts{display:flex;flex-wrap:wrap;gap:.3rem 1.6rem;margin:.7rem 0;padding:0;list-style:none;color:var(--quiet)}
ul.facts b{color:var(--text);font-variant-numeric:tabular-nums}
nav{display:flex;flex-wrap:wrap;gap:.1rem 1rem;margin:.3rem 0}
.scroll{overflow:auto;max-height:92vh;border:1px solid var(--line);border-radius:6px;margin:.5rem 0}
.scroll.low{max-height:70vh}
table{border-collapse:separate;border-spacing:0;background:var(--page)}
.scroll{width:fit-content;max-width:100%}
caption{text-align:left;padding:.4rem .6rem;color:var(--quiet)}
th,td{padding:.16rem .5rem;text-align:left;vertical-align:top;border-bottom:1px solid var(--line)}
thead th{position:sticky;top:0;background:var(--soft);z-index:2;font-weight:650;vertical-align:bottom;white-space:nowrap}
tbody th{font-weight:400;background:var(--page);white-space:nowrap}
tbody:nth-of-type(even) th,tbody:nth-of-type(even) td{background:var(--soft)}
.matrix tbody th{position:sticky;left:0;z-index:1;border-right:1px solid var(--strong)}
.matrix thead tr:first-child th:first-child{left:0;z-index:3;border-right:1px solid var(--strong)}
.matrix thead tr+tr th{top:1.75rem;font-weight:400;font-size:12px;text-align:center;padding:.1rem .3rem .25rem}
.matrix thead th[colspan]{text-align:center;height:1.75rem}
.matrix thead tr+tr th:nth-child(odd){color:var(--change-ink)}
.matrix thead tr+tr th:nth-child(even){color:var(--learn-ink)}
.matrix td{text-align:center;min-width:3rem;padding:.16rem .2rem;color:var(--quiet)}
.matrix th[colspan],.matrix td:nth-child(even),.matrix thead tr+tr th:nth-child(odd){border-left:1px solid var(--strong)}
.matrix tbody tr:hover>*{background:var(--change-soft)}
.matrix th small{color:var(--quiet);font-size:12px}
.matrix thead b{font-variant-numeric:tabular-nums}
i,b.m,a.m{font-style:normal;display:inline-block;min-width:2.4rem;padding:0 .3rem;border-radius:4px;border:1.5px solid transparent;font-size:12px;line-height:1.35;text-align:center;text-decoration:none;white-space:nowrap}
b.c{background:var(--change);color:var(--on-change);border-color:var(--change)}
b.l{background:var(--learn);color:var(--on-learn);border-color:var(--learn)}
a.c,i.c{background:var(--change-soft);color:var(--change-ink);border:1.5px dashed var(--change)}
a.l,i.l{background:var(--learn-soft);color:var(--learn-ink);border:1.5px dashed var(--learn)}
b.m.x,a.m.x,i.x{background:var(--bad-soft);color:var(--bad-ink);border:2px solid var(--bad);font-weight:700}
a.m:hover{text-decoration:underline}
tr:target>*{background:var(--change-soft)!important;box-shadow:inset 0 2px var(--link),inset 0 -2px var(--link)}
.key{display:flex;flex-wrap:wrap;gap:.3rem 1.3rem;margin:.4rem 0;padding:0;list-style:none}
.key li{display:flex;gap:.4rem;align-items:center}
.key .dot,.free{color:var(--quiet)}
.way{white-space:pre;margin:0}
.stay{position:sticky;top:2.2rem}
details{margin:.2rem 0}
summary{cursor:pointer}
td details,th details{margin:0}
.list{columns:16rem auto;margin:.2rem 0;padding:0;list-style:none}
.plus,.minus{font-weight:700;padding:0 .35rem;border-radius:3px;border:1px solid var(--strong);white-space:nowrap}
.plus{background:var(--text);color:var(--page)}
.find{display:flex;gap:.8rem;flex-wrap:wrap;align-items:center;margin:.5rem 0}
.find[hidden]{display:none}
input[type=search]{font:inherit;padding:.25rem .5rem;min-width:18rem;border:1px solid var(--strong);border-radius:4px;background:var(--page);color:var(--text)}
fieldset{border:0;margin:.3rem 0;padding:0;min-width:0}
legend{padding:0;margin-bottom:.2rem}
.pick{margin-right:.9rem;white-space:nowrap}
.picture{overflow:auto;border:1px solid var(--line);border-radius:6px;margin:.5rem 0}
svg{display:block}
svg text{fill:var(--text);font:11px ui-monospace,SFMono-Regular,Menlo,Consolas,"DejaVu Sans Mono","Liberation Mono",monospace}
svg .b{font-weight:700}
svg .q{fill:var(--quiet)}
svg .box{fill:var(--page);stroke:var(--strong);stroke-width:1.3}
svg .ti{fill:var(--change-ink)}
svg .tl{fill:var(--learn-ink)}
svg .bar{fill:none}
svg .won{visibility:hidden;font-weight:700}
svg path{fill:none;stroke:var(--quiet);stroke-width:1.4}
svg path.h{fill:var(--quiet);stroke:none}
svg .monitored{stroke:var(--monitor);stroke-dasharray:2 3}
svg .monitor{stroke:var(--monitor);stroke-dasharray:8 3}
svg .period{stroke:var(--time);stroke-dasharray:9 3 2 3}
svg .schedule{stroke:var(--time);stroke-dasharray:12 3 2 3 2 3}
svg .menu{stroke:var(--monitor);stroke-dasharray:4 2 1 2}
svg .clock{stroke:var(--time);stroke-dasharray:1 3}
svg.key-line{display:inline-block;vertical-align:middle}
footer{margin-top:2.5rem;border-top:1px solid var(--line);padding-top:.6rem;color:var(--quiet)}
@media (max-width:45rem){body{padding:.8rem .7rem 2rem}.matrix tbody th{white-space:normal;min-width:10.5rem;max-width:11rem;padding-right:.2rem}.matrix tbody th code{font-size:10.5px;overflow-wrap:anywhere}.matrix tbody th small{display:block}.matrix td{min-width:2.7rem}input[type=search]{min-width:10rem;width:100%}}
@page{size:A4 landscape;margin:11mm}
@media print{body{font-size:10px;padding:0;max-width:none}code,pre,i,b.m,a.m{font-size:9px}.matrix thead tr+tr th,.matrix th small{font-size:9px}.scroll,.scroll.low,.picture{overflow:visible;max-height:none;border:0}
.find,nav,.pick,.radio legend{display:none}thead th,.matrix tbody th,.stay{position:static}tr,.verdict,svg{break-inside:avoid}h2,h2+p,h2+p+.key{break-after:avoid}
*{print-color-adjust:exact;-webkit-print-color-adjust:exact}svg{max-width:100%;max-height:165mm;width:auto;height:auto}svg.key-line{width:44px}.many{zoom:.68}.matrix td{min-width:2rem}th,td{padding:.1rem .25rem}}
.radio:has(.p0:checked) :is(.n,.a):not(.i0):not(.l0){opacity:.28}
.radio:has(.p0:checked) :is(.i0>.ci,.l0>.cl){visibility:visible}
.radio:has(.p0:checked) .i0>.bi{fill:var(--change)}.radio:has(.p0:checked) .l0>.bl{fill:var(--learn)}
.radio:has(.p1:checked) :is(.n,.a):not(.i1):not(.l1){opacity:.28}
.radio:has(.p1:checked) :is(.i1>.ci,.l1>.cl){visibility:visible}
.radio:has(.p1:checked) .i1>.bi{fill:var(--change)}.radio:has(.p1:checked) .l1>.bl{fill:var(--learn)}
.radio:has(.p2:checked) :is(.n,.a):not(.i2):not(.l2){opacity:.28}
.radio:has(.p2:checked) :is(.i2>.ci,.l2>.cl){visibility:visible}
.radio:has(.p2:checked) .i2>.bi{fill:var(--change)}.radio:has(.p2:checked) .l2>.bl{fill:var(--learn)}
.radio:has(.p3:checked) :is(.n,.a):not(.i3):not(.l3){opacity:.28}
.radio:has(.p3:checked) :is(.i3>.ci,.l3>.cl){visibility:visible}
.radio:has(.p3:checked) .i3>.bi{fill:var(--change)}.radio:has(.p3:checked) .l3>.bl{fill:var(--learn)}
.radio:has(.p4:checked) :is(.n,.a):not(.i4):not(.l4){opacity:.28}
.radio:has(.p4:checked) :is(.i4>.ci,.l4>.cl){visibility:visible}
.radio:has(.p4:checked) .i4>.bi{fill:var(--change)}.radio:has(.p4:checked) .l4>.bl{fill:var(--learn)}
.radio:has(.p5:checked) :is(.n,.a):not(.i5):not(.l5){opacity:.28}
.radio:has(.p5:checked) :is(.i5>.ci,.l5>.cl){visibility:visible}
.radio:has(.p5:checked) .i5>.bi{fill:var(--change)}.radio:has(.p5:checked) .l5>.bl{fill:var(--learn)}
.radio:has(.p6:checked) :is(.n,.a):not(.i6):not(.l6){opacity:.28}
.radio:has(.p6:checked) :is(.i6>.ci,.l6>.cl){visibility:visible}
.radio:has(.p6:checked) .i6>.bi{fill:var(--change)}.radio:has(.p6:checked) .l6>.bl{fill:var(--learn)}
.radio:has(.p7:checked) :is(.n,.a):not(.i7):not(.l7){opacity:.28}
.radio:has(.p7:checked) :is(.i7>.ci,.l7>.cl){visibility:visible}
.radio:has(.p7:checked) .i7>.bi{fill:var(--change)}.radio:has(.p7:checked) .l7>.bl{fill:var(--learn)}
.radio:has(.p8:checked) :is(.n,.a):not(.i8):not(.l8){opacity:.28}
.radio:has(.p8:checked) :is(.i8>.ci,.l8>.cl){visibility:visible}
.radio:has(.p8:checked) .i8>.bi{fill:var(--change)}.radio:has(.p8:checked) .l8>.bl{fill:var(--learn)}
.radio:has(.p9:checked) :is(.n,.a):not(.i9):not(.l9){opacity:.28}
.radio:has(.p9:checked) :is(.i9>.ci,.l9>.cl){visibility:visible}
.radio:has(.p9:checked) .i9>.bi{fill:var(--change)}.radio:has(.p9:checked) .l9>.bl{fill:var(--learn)}
.radio:has(.p10:checked) :is(.n,.a):not(.i10):not(.l10){opacity:.28}
.radio:has(.p10:checked) :is(.i10>.ci,.l10>.cl){visibility:visible}
.radio:has(.p10:checked) .i10>.bi{fill:var(--change)}.radio:has(.p10:checked) .l10>.bl{fill:var(--learn)}
.radio:has(.p11:checked) :is(.n,.a):not(.i11):not(.l11){opacity:.28}
.radio:has(.p11:checked) :is(.i11>.ci,.l11>.cl){visibility:visible}
.radio:has(.p11:checked) .i11>.bi{fill:var(--change)}.radio:has(.p11:checked) .l11>.bl{fill:var(--learn)}
.radio:has(.p12:checked) :is(.n,.a):not(.i12):not(.l12){opacity:.28}
.radio:has(.p12:checked) :is(.i12>.ci,.l12>.cl){visibility:visible}
.radio:has(.p12:checked) .i12>.bi{fill:var(--change)}.radio:has(.p12:checked) .l12>.bl{fill:var(--learn)}
.radio:has(.p13:checked) :is(.n,.a):not(.i13):not(.l13){opacity:.28}
.radio:has(.p13:checked) :is(.i13>.ci,.l13>.cl){visibility:visible}
.radio:has(.p13:checked) .i13>.bi{fill:var(--change)}.radio:has(.p13:checked) .l13>.bl{fill:var(--learn)}
.radio:has(.p14:checked) :is(.n,.a):not(.i14):not(.l14){opacity:.28}
.radio:has(.p14:checked) :is(.i14>.ci,.l14>.cl){visibility:visible}
.radio:has(.p14:checked) .i14>.bi{fill:var(--change)}.radio:has(.p14:checked) .l14>.bl{fill:var(--learn)}
.radio:has(.p15:checked) :is(.n,.a):not(.i15):not(.l15){opacity:.28}
.radio:has(.p15:checked) :is(.i15>.ci,.l15>.cl){visibility:visible}
.radio:has(.p15:checked) .i15>.bi{fill:var(--change)}.radio:has(.p15:checked) .l15>.bl{fill:var(--learn)}
"#;

/// The digest of the style: SHA-256 of its bytes in base64 (FIPS 180-4, RFC 4648).
pub const STYLE_DIGEST: &str = "H2ygCK52T2E4S+8g4+9EoY7++QzN8A4/VNWL53hzz1E=";

/// The script, which filters the rows of the matrix: what lies between `<script>` and `</script>`. Without it the page only lacks
/// that filter.
pub const SCRIPT: &str = r#"
const box=document.querySelector('.find');
if(box){box.hidden=false;
const word=box.querySelector('[type=search]'),only=box.querySelector('[type=checkbox]'),told=box.querySelector('output');
const rows=[...document.querySelectorAll('.matrix tbody tr')];
const look=()=>{const w=word.value.toLowerCase().trim();let n=0;
for(const r of rows){const on=(!w||r.cells[0].textContent.toLowerCase().includes(w))&&(!only.checked||r.querySelector('.x'));
r.hidden=!on;if(on)n++}told.textContent=n+' of '+rows.length+' rows'};
box.addEventListener('input',look);box.addEventListener('submit',e=>e.preventDefault());look()}
"#;

/// The digest of the script, as that of the style.
pub const SCRIPT_DIGEST: &str = "kC6SdyYZvkN/K6CDe8H743HnpjzfJPBYl5nBu2dOvrs=";
