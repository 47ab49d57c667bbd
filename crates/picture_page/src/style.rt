//! The style sheet.
ghost use Rattle.std.specs.Prelude.{◌≡◌, ◌++◌, OnOk};
ghost use Rattle.picture_page.specs.Page.{present_style};

use crate::form::put_form;
use no_memory::NoMemory;

/// The style sheet of a page, behind its title.
pub(crate) const STYLE: &[u8] = b"</title>\n\
<style>\n\
:root{color-scheme:light dark;--bg:#fff;--ink:#16212b;--soft:#44525f;--line:#dfe5ea;--mid:#7c8995;--edge:#b9c3cc;--up:#e3f0f9;--rise:#a9d1ec;--blue:#00507d;--down:#fff4e2;--fall:#f5cf96;--brown:#8a4600;--turn:#5b6a77;--shut:#e9edf0;--quay:#8f9aa4;--water:#f1f7fb;--hull:#c6e0f2;--hulk:#fbe0b8}\n\
@media screen and (prefers-color-scheme:dark){:root{--bg:#12181e;--ink:#e8eef3;--soft:#a9b6c1;--line:#2b353e;--mid:#7c8995;--edge:#414e59;--up:#142c3b;--rise:#1f5a7d;--blue:#7cc4ee;--down:#38280f;--fall:#775114;--brown:#f0b45c;--turn:#93a1ad;--shut:#27313a;--quay:#65727d;--water:#19232b;--hull:#1d4a66;--hulk:#5d4216}}\n\
*{box-sizing:border-box}\n\
body{margin:0;background:var(--bg);color:var(--ink);font:14px/1.35 \"Helvetica Neue\",Helvetica,Arial,\"Liberation Sans\",sans-serif}\n\
main{max-width:1300px;margin:0 auto;padding:20px 16px 32px}\n\
a{color:inherit}\n\
h1{font-size:24px;line-height:1.2;margin:0 0 4px;font-weight:700;overflow-wrap:anywhere}\n\
h2{font-size:16px;margin:26px 0 10px;font-weight:700}h2+.sub{margin:-6px 0 10px}main:not(:has(.card tr+tr)) h2+.sub{display:none}\n\
.sub{margin:0 0 4px;color:var(--soft)}\n\
table.t{border-collapse:collapse;table-layout:fixed;width:100%;margin:10px 0 8px}\n\
.t th,.t td{padding:0;text-align:left;vertical-align:middle;border-bottom:1px solid var(--line);font-weight:400;overflow-wrap:anywhere}\n\
.t thead th,.t thead td{border-bottom:1px solid var(--mid);color:var(--soft);font-size:12px;vertical-align:bottom}\n\
.t th{width:52px}\n\
.t th:first-child{width:124px}.t th:nth-child(3){width:44px}.t th:nth-child(6){width:84px}\n\
.t:first-child th:first-child{width:408px}\n\
.t .v,.t .r{text-align:right;font-variant-numeric:tabular-nums;white-space:nowrap;overflow-wrap:normal}\n\
.t .v{padding-right:10px}\n\
.t th.r{width:60px}\n\
.t .c b{display:block;font-size:14px;line-height:17px}\n\
.t .c small{color:var(--soft);font-size:11px;line-height:13px;display:block}\n\
.t .s th,.t .s td{font-size:12px;line-height:15px}\n\
.t .s .f th,.t .s .f td{border-bottom:0;border-top:1px solid var(--mid);padding-top:3px;font-weight:700;font-size:14px}\n\
.t svg,.legend svg{fill:var(--ink)}\n\
.ax svg{display:block;width:100%;height:auto;overflow:visible}\n\
.ax text,.ax use{pointer-events:none}\n\
.ax a:hover .e0,.ax a:hover .e1,.ax a:focus .e0,.ax a:focus .e1{stroke-width:4}\n\
svg.a{display:inline-block;fill:var(--ink);vertical-align:-1px;margin-right:5px}\n\
svg.k{display:inline-block;vertical-align:-3px;margin-left:4px}\n\
svg text{font-family:\"Helvetica Neue\",Helvetica,Arial,\"Liberation Sans\",sans-serif;fill:var(--ink)}\n\
.g{stroke:var(--line);stroke-width:1}\n\
.x text{font-size:11px;text-anchor:middle;fill:var(--soft)}\n\
.b0{fill:var(--up)}.w0{fill:var(--rise)}.e0{fill:none;stroke:var(--blue);stroke-width:2}\n\
.b1{fill:var(--down)}.w1{fill:var(--fall)}.e1{fill:none;stroke:var(--brown);stroke-width:2}\n\
.l{fill:none;stroke:var(--turn);stroke-width:2}\n\
.o{fill:var(--bg);stroke:var(--turn);stroke-width:1;stroke-dasharray:3 2}\n\
.z{fill:url(#z)}.zb{fill:none;stroke:var(--turn);stroke-width:1}\n\
#z path{fill:var(--bg);stroke:none}#z path+path{stroke:var(--turn)}\n\
.n{fill:var(--shut)}.nb{stroke:var(--ink);stroke-width:3}\n\
.q{font-size:10px;fill:var(--soft)}\n\
.n1{font-size:13px;font-weight:700}.n2{font-size:11px;font-weight:700;text-anchor:middle}.n3{font-size:10px;text-anchor:middle}.n4{font-size:10px;paint-order:stroke;stroke:var(--bg);stroke-width:3px}\n\
.p{stroke:var(--ink);stroke-width:2}\n\
.m{fill:var(--bg);stroke:var(--ink);stroke-width:2}\n\
.tb{fill:var(--bg)}.tl{fill:none;stroke:var(--mid);stroke-width:1}\n\
svg.k text{font-size:10px;text-anchor:middle}\n\
.kd{fill:var(--bg);stroke:var(--ink);stroke-width:1}\n\
.legend{display:flex;flex-wrap:wrap;gap:6px 20px;margin:14px 0 0;padding:0;list-style:none;font-size:12px;color:var(--soft)}\n\
.legend li{display:flex;align-items:center;gap:7px}\n\
.legend svg{display:block;flex:none;margin:0}\n\
main:not(:has(.t .b0)) li:has([href=\"#u\"]),main:not(:has(.t .b1)) li:has([href=\"#d\"]),main:not(:has(.t .o,.t .oq)) li:has(.o){display:none}\n\
.cards{display:grid;grid-template-columns:repeat(auto-fill,minmax(min(100%,260px),1fr));gap:14px}\n\
.card{border:1px solid var(--edge);border-radius:4px;padding:9px 10px 7px;break-inside:avoid;margin:0;min-width:0;grid-column:span 2}\n\
.card:target{outline:3px solid var(--blue)}\n\
.card h3{margin:0 0 6px;font-size:14px;font-weight:400;display:flex;flex-wrap:wrap;align-items:baseline;gap:0 12px;overflow-wrap:anywhere}\n\
.card h3 b{font-size:17px}\n\
.card h3 span:last-child{margin-left:auto;font-variant-numeric:tabular-nums}\n\
.card svg.d{display:block;width:100%;max-width:540px;height:auto;margin-top:18px;overflow:visible}\n\
.card table{border-collapse:collapse;width:100%;font-size:12px;margin-top:3px}\n\
.card td{padding:1px 8px 1px 0;vertical-align:top;overflow-wrap:anywhere}\n\
.card td:first-child{width:20px}.card td:nth-child(2){font-weight:700;width:18px}.card td:nth-child(3){width:31%}.card td:nth-child(4){width:23%}.card td:nth-child(5){padding-left:14px}\n\
.card td.v{text-align:right;font-variant-numeric:tabular-nums;white-space:nowrap}\n\
.card td:last-child{padding-right:0}\n\
.qy{fill:var(--quay)}.wt{fill:var(--water);stroke:none}.ed{stroke:var(--mid);stroke-width:4;stroke-dasharray:8 12}\n\
.gt{fill:none;stroke:var(--ink);stroke-width:12}\n\
.hu{fill:var(--hull);stroke:var(--blue);stroke-width:6;stroke-linejoin:round}.hd{fill:var(--hulk);stroke:var(--brown);stroke-width:6;stroke-linejoin:round}\n\
.ti{stroke:var(--ink);stroke-width:10}.bo{fill:var(--ink)}\n\
.d text{font-size:44px}.d .sm{font-size:36px}.d .ft{font-size:40px}.d .mo{font-family:\"DejaVu Sans Mono\",\"Liberation Mono\",Menlo,Consolas,monospace;white-space:pre}\n\
.d .bd{font-weight:700}.d .en{text-anchor:end}.d .mi{text-anchor:middle}.d .gy{fill:var(--soft)}\n\
@media print,(min-width:580px){.card:has(tr:only-child){grid-column:span 1}.card:has(tr:only-child) :is(.mo,.qn,.mi,.fl,.d use,td:nth-child(-n+2)){display:none}.card:has(tr:only-child) td{width:auto}.card:has(tr:only-child) .ft{font-size:84px;transform:translateY(16px)}.card:has(tr:only-child) svg.d{margin-top:0}}\n\
@media (max-width:579px){.cards{grid-template-columns:100%}.card{grid-column:auto}.fl,.d .nm,.d .ft.mi{display:none}.d .bd{font-size:60px}.d .sm .bd{font-size:48px}.d .ft{font-size:56px}}\n\
@media screen and (max-width:1179px){main{max-width:912px}table.t,.t thead,.t tbody{display:block}.t tr{display:grid;grid-template-columns:minmax(104px,1fr) 56px 44px 56px 56px minmax(104px,4fr) 60px;border-bottom:1px solid var(--line)}.t thead tr{border-color:var(--mid)}.t th,.t td,.t thead th,.t thead td{border:0;width:auto!important}.t .ax{grid-column:1/-1;grid-row:2;padding-top:3px}.t .r{grid-column:-2;grid-row:1}.t:first-child th:first-child{grid-column:1/-2}.t .c b,.t .c small{display:inline;margin-right:10px}.t .f{border:0}.t .f td:empty{display:none}.t .f th{grid-column:1/-2}}\n\
@media screen and (max-width:699px){.t+.t .ax{display:none}.t .s tr{padding:2px 0}.t:first-child{overflow-x:auto}.t:first-child tr{min-width:660px}}\n\
@media screen and (max-width:579px){main{padding:14px 10px 24px}h1{font-size:20px}.t+.t tr{grid-template-columns:repeat(4,1fr) 60px}.t+.t :is(th:first-child,td:nth-child(6),th:nth-child(6)){grid-column:span 2;grid-row:1}.t+.t .f th{grid-column:span 4}.t .v{text-align:left}}\n\
@page{size:A4 landscape;margin:8mm}\n\
@media print{main{padding:0;max-width:none;width:1050px}h1{font-size:20px;margin:0}.t tr,.legend{break-inside:avoid}.t tr:last-child,.t thead{break-after:avoid}.legend{break-before:avoid}h2,h2+.sub{break-after:avoid}h2{margin-top:16px}body{-webkit-print-color-adjust:exact;print-color-adjust:exact}.t th{width:46px}.t th:first-child{width:112px}.t th:nth-child(3){width:38px}.t th:nth-child(6){width:76px}.t th.r{width:60px}.t:first-child th:first-child{width:364px}a{text-decoration:none}.cards{grid-template-columns:repeat(4,1fr);gap:10px}}\n\
";

/// What the style sheet has besides where the page shows the minute that it is.
const PRESENT_STYLE: &[u8] = b"\
.y{fill:none;stroke:var(--ink);stroke-width:2}\n\
.f0{fill:none;stroke:var(--ink);stroke-width:1}\n\
.oq{fill:var(--bg);stroke:var(--turn);stroke-width:1}\n\
";

/// Appends those rules, where the page shows the minute that it is.
pub(crate) fn put_present_style(out: &mut Vec<u8>, present: Option<u32>) -> Result<(), NoMemory>
    ensures { OnOk result (out.new.items ≡ out.old.items ++ present_style present) }
{
    match present {
        None => Ok(()),
        Some(_) => put_form(out, PRESENT_STYLE, &[]),
    }
}
