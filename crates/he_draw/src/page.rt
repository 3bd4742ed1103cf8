// A page of races, for a browser.

ghost use Rattle.std.specs.Prelude.{ℕ, ◌≡◌, ◌++◌, List, OnOk};
ghost use Rattle.he_draw.specs.Picture.{Prints};
ghost use Rattle.he_draw.specs.Page.{name_text, totals_facts};

use crate::escaping::write_escaped;
use crate::totals::{Totals, push_totals};
use he_addr::Memory;
use he_print::write_parts;
use std::alloc::Allocator;

// The beginning of a page, up to its first text. Totals are known last but shown first, and races are written as they
// come but shown by their end: `order` sorts those of all texts, and only in the order read each text has a box of its
// own. Bars are as long as their ticks, on one scale for all races, by whose end 99 of 100 have ended, or on their
// race's own. A bar that goes on after the end of its scale is cut there, and ends in dots.
const HEAD: &[u8] = b"<!DOCTYPE html>\n<html lang='en'>\n<head>\n<meta charset='utf-8'>\n\
<meta name='viewport' content='width=device-width,initial-scale=1'>\n<title>Races</title>\n<style>\n\
:root{color-scheme:light dark;--bg:#fff;--fg:#222;--dim:#666;--line:#ddd;--won:#171;--failed:#b22;--stopped:#767676;\
--dot:#24a}\n\
@media(prefers-color-scheme:dark){:root{--bg:#1d1f21;--fg:#ddd;--dim:#9aa;--line:#3a3d40;--won:#4c4;--failed:#f66;\
--stopped:#8a8a8a;--dot:#8af}}\n\
body{display:flex;flex-direction:column;margin:0 auto;max-width:75rem;padding:1rem;background:var(--bg);\
color:var(--fg);font:.95rem/1.4 system-ui,sans-serif}\n\
header{order:-1}h1{margin:0}header p{display:flex;flex-wrap:wrap;gap:.5rem 1.5rem;color:var(--dim);font-size:.8rem}\n\
header b{display:block;color:var(--fg);font-size:1.6rem}\n\
nav{display:flex;flex-wrap:wrap;gap:.3rem 1.2rem;margin-bottom:1rem;color:var(--dim);font-size:.85rem}\n\
nav i{display:inline-block;width:1.2rem;height:.7rem;border-radius:2px}nav .dot{width:6px}\n\
main,article{display:flex;flex-flow:row wrap;gap:0 .8rem}article{flex:0 0 100%}\n\
body:not(:has(#turn:checked)) article{display:contents}\n\
h2,article>a{order:-9999999}h2{margin:.6rem 0;font-size:1.1rem}article>a{color:inherit;padding:.6rem 0}\n\
body:has(#turn:checked) h2{flex:0 0 100%}body:not(:has(#turn:checked,#index:checked)) h2,\
body:not(:has(#index:checked)) article>a{display:none}\n\
section{flex:0 0 100%;min-width:0;order:calc(0 - var(--t));--e:max(1,var(--end,1));padding:.6rem 0;\
border-top:1px solid var(--line);content-visibility:auto;contain-intrinsic-size:auto 10rem}\n\
body:has(#bad:checked) .connected,body:has(#slow:checked) .unlost{display:none}\n\
body:has(#turn:checked) section{order:0}body:has(#own:checked) section{--e:max(1,var(--t))}\n\
body:has(#own:checked) .scale{visibility:hidden}\n\
section:target{background:color-mix(in srgb,var(--dot) 12%,transparent)}\n\
h1,h2,h3{overflow-wrap:anywhere}h3{margin:.1rem 0 .4rem;font-size:1.05rem}h3 a{color:inherit;text-decoration:none}\n\
small{color:var(--dim);font-weight:400}\n\
section div{display:grid;grid-template-columns:16rem 1fr 15rem;gap:.8rem;align-items:center;\
font:.85rem ui-monospace,monospace}\n\
section div span{overflow-wrap:anywhere}\n\
section p{position:relative;height:.8rem;margin:0;background:linear-gradient(var(--line),var(--line)) center/100% 1px \
no-repeat}\n\
section i{position:absolute;top:0;bottom:0;box-sizing:border-box;min-width:2px;border-radius:2px;\
left:calc(100%*min(var(--s),var(--e))/var(--e));\
width:calc(100%*(min(var(--s) + var(--l),var(--e)) - min(var(--s),var(--e)))/var(--e));\
border-right:calc(8px*clamp(0,var(--s) + var(--l,0) - var(--e),1)) dotted var(--bg)}\n\
section .dot{width:6px;margin-left:-3px}\n\
.won{background:var(--won)}.failed,.silent{background:var(--failed)}.stopped{background:var(--stopped)}\
.dot{background:var(--dot)}\n\
.wait{background:repeating-linear-gradient(90deg,var(--dot) 0 2px,transparent 2px 5px)}\
.pause{background:repeating-linear-gradient(45deg,var(--dim) 0 1px,transparent 1px 4px)}\n\
summary{margin-top:.3rem;color:var(--dim);font-size:.85rem;cursor:pointer}\n\
pre{font-size:.78rem;white-space:pre-wrap;overflow-wrap:anywhere}\n\
@media(max-width:64rem){section div{grid-template-columns:10rem 1fr 11rem}}\n\
@media(max-width:48rem){section div{grid-template-columns:1fr auto;gap:.1rem .6rem;margin:.35rem 0}\
section p{grid-column:1/3;grid-row:2}small{font-size:.78rem}}\n\
@media print{nav label{display:none}section{content-visibility:visible;break-inside:avoid}i{print-color-adjust:exact}}\n\
</style>\n</head>\n<body>\n<nav>\
<label><input type='checkbox' id='turn'> in order, not slowest first</label>\
<label><input type='checkbox' id='own'> own scale</label>\
<label><input type='checkbox' id='index'> index of races</label>\
<label><input type='checkbox' id='bad'> only those not connected</label>\
<label><input type='checkbox' id='slow'> only those that lost time</label>\n\
<span><i class='dot'></i> answer</span><span><i class='wait'></i> wait for the AAAA answer</span>\
<span><i class='pause'></i> pause</span><span><i class='won'></i> connected</span>\
<span><i class='failed'></i> failed, or no answer</span><span><i class='stopped'></i> stopped</span></nav>\n<main><article>\n";

/// Appends the beginning of a page: its layout, switches and colours. After `Memory` the vector holds a first part of
/// it too.
pub fn write_head<A: Allocator + Copy>(text: &mut Vec<u8, A>) -> Result<(), Memory>
    ensures { OnOk result ((head : List ℕ) × (text.new.items ≡ text.old.items ++ head)) }
{
    text.extend_from_slice(HEAD)
}

/// Appends the name of a text, above its races. After `Memory` the vector holds a first part of it too.
pub fn write_name<A: Allocator + Copy>(name: &str, text: &mut Vec<u8, A>) -> Result<(), Memory>
    ensures { OnOk result (text.new.items ≡ text.old.items ++ name_text name.now) }
{
    text.extend_from_slice(b"</article><article>\n<h2>")?;
    write_escaped(name.as_bytes(), text)?;
    text.extend_from_slice(b"</h2>\n")?;
    Ok(())
}

/// Appends the end of a page: the totals of its races, which are shown first, and the end of their scale. After
/// `Memory` the vector holds a first part of it too.
pub fn write_tail<A: Allocator + Copy>(totals: Totals, text: &mut Vec<u8, A>) -> Result<(), Memory>
    ensures { OnOk result (Prints (totals_facts totals) text.old.items text.new.items) }
{
    let mut parts = Vec::new(*text.allocator());
    push_totals(totals, &mut parts)?;
    write_parts(&parts, text)
}
