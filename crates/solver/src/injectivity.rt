// Injectivity: selectors made on the applications of one class.
ghost use Rattle.std.specs.Prelude.{◌≡◌, true, ◌∷◌, []};
ghost use Rattle.shinri_core.specs.Memory.Table.{context};
ghost use Rattle.solver.specs.State.{mint};
ghost use Rattle.solver.specs.Rules.{mint_on_both, mint_selectors};
ghost use Rattle.solver.specs.Memory.ConstructorClash.{app_at};
ghost use Rattle.solver.specs.Memory.Injecting.{Steps, Selectable, SelectableBoth, AppliesBoth, OneClass, TwoTerms, KnownAfter, Injectable, InjectableAt, AppAsked, Covered, Injects, select_both, select_from};

use crate::constructor_clash::symbol_of;
use crate::layout::Kind;
use crate::make::mint;
use crate::work::{W_MARK, ctor_of_class, next_of_class};
use shinri_core::context::{arity, term_count};
use shinri_core::ids::{SymbolId, TermId};
use shinri_core::limits::NoRoom;
use shinri_core::table::get_at;

// A selector made on a term and marked.
fn mint_selector(t: &mut [u32], e: &[u32], w: &mut [u32], f: usize, x: usize) -> Result<(), NoRoom>
    requires { Selectable t.old e.now w.old f x }
    ensures { Steps (λ s. (mint s f (x ∷ [])).state) t.old e.now w.old result t.new w.new }
{
    let args = [x as u32];
    mint(t, e, w, SymbolId(f as u32), &args)?;
    Ok(())
}

// A selector on the lower application, then on the higher one. Where the lower one is known to have it, nothing is made there.
fn mint_on_both(
    t: &mut [u32],
    e: &[u32],
    w: &mut [u32],
    f: usize,
    p: usize,
    q: usize,
    known: bool,
) -> Result<(), NoRoom>
    requires { SelectableBoth t.old e.now w.old f p q known }
    ensures { Steps (λ s. mint_on_both p q s f) t.old e.now w.old result t.new w.new }
{
    if !known {
        mint_selector(t, e, w, f, p)?;
    }
    mint_selector(t, e, w, f, q)
}

// The selectors of a constructor on two of its applications.
fn select_both(
    t: &mut [u32],
    e: &[u32],
    w: &mut [u32],
    c: usize,
    p: usize,
    q: usize,
    known: bool,
) -> Result<(), NoRoom>
    requires { AppliesBoth t.old e.now w.old c p q known }
    ensures { Steps (select_both (context t.old) c p q) t.old e.now w.old result t.new w.new }
{
    let n = arity(t, SymbolId(c as u32));
    for i in 0..n {
        mint_on_both(t, e, w, c + 2 + i, p, q, known)?;
    }
    Ok(())
}

// Two applications of one class: the selectors are made if their constructors are the same.
fn mint_selectors(
    t: &mut [u32],
    e: &[u32],
    w: &mut [u32],
    p: usize,
    q: usize,
    known: bool,
) -> Result<(), NoRoom>
    requires { OneClass t.old e.now w.old p q known }
    ensures { Steps (λ s. mint_selectors s (app_at (context t.old) p, app_at (context t.old) q)) t.old e.now w.old result t.new w.new }
{
    let c = symbol_of(t, p);
    if symbol_of(t, q) != c {
        return Ok(());
    }
    select_both(t, e, w, c, p, q, known)
}

// Has the class of a marked application a lower one of its constructor? The lowest one of the class is looked at.
fn covered(t: &[u32], e: &[u32], w: &[u32], p: usize) -> bool
    requires { AppAsked t.now e.now w.now p }
    ensures { result ≡ true → Covered t.now e.now w.now p }
{
    match ctor_of_class(t, e, w, TermId(p as u32)) {
        None => false,
        Some((f, x)) => x.0 as usize != p && f.0 as usize == symbol_of(t, p),
    }
}

// Are all selectors on p known to be made and marked, once it was paired with q?
fn known_after(t: &[u32], p: usize, q: usize, known: bool) -> bool
    requires { TwoTerms t.now p q }
    ensures { KnownAfter (context t.now) p q known result }
{
    known || symbol_of(t, p) == symbol_of(t, q)
}

// A marked application with each one behind it in its class. Its own selectors are made with the first of its constructor.
fn select_class(t: &mut [u32], e: &[u32], w: &mut [u32], p: usize) -> Result<(), NoRoom>
    requires { AppAsked t.old e.now w.old p }
    ensures { Steps (select_from (context t.old) w.old p) t.old e.now w.old result t.new w.new }
{
    let mut known = false;
    let mut next = next_of_class(w, TermId(p as u32));
    while let Some(x) = next {
        let q = x.0 as usize;
        mint_selectors(t, e, w, p, q, known)?;
        known = known_after(t, p, q, known);
        next = next_of_class(w, x);
    }
    Ok(())
}

// The same for any term. If there is a lower application of its constructor in its class, both of each pair were paired with that one
// before, so all selectors on them are made and marked.
fn select_from(t: &mut [u32], e: &[u32], w: &mut [u32], p: usize) -> Result<(), NoRoom>
    requires { InjectableAt t.old e.now w.old p }
    ensures { Steps (select_from (context t.old) w.old p) t.old e.now w.old result t.new w.new }
{
    if get_at(w, W_MARK, p) != Kind::CtorApp as usize || covered(t, e, w, p) {
        return Ok(());
    }
    select_class(t, e, w, p)
}

// The rule, which passes unless it runs out of room.
pub fn instantiate_injectivity_selectors(
    t: &mut [u32],
    e: &[u32],
    w: &mut [u32],
) -> Result<(), NoRoom>
    requires { Injectable t.old e.now w.old }
    ensures { Injects t.old e.now w.old result t.new w.new }
{
    for p in 0..term_count(t) {
        select_from(t, e, w, p)?;
    }
    Ok(())
}
