// The scan of lifts for soundness, where nets and delivered lots are sound: places are tested before
// units are lifted by them, and again beside the units that are then handed.
// Nets, delivered lots and lifts come one by one, of the nine columns those that are asked for.
#![tactic(auto)]

ghost use Rattle.std.specs.Prelude.{◌≡◌, false, ◌≤◌, ◌<◌, length, get_or, drop};
ghost use Rattle.rules.specs.Handover.{covered};
ghost use Rattle.rules.specs.Book.{order_in, lifts_at, places_in, places_sound, lifts_sound};
ghost use Rattle.placing.specs.LiftScan.{all_lifts, CanScan, CanPlace};

use book::taking;
use rules::{ACCOUNT_COUNT, ISSUE_COUNT, LIFT_WORDS, MOST_LIFTS, Phase};
use runs::RUN_COUNT;

// Do new places never fall, nor lie behind the old ones, nor these behind the units, nor new ones behind
// the units handed?
fn places_sound(words: &[u32], number: u32, handed: u32) -> bool
    requires { (length words.now ≡ 18) × (get_or words.now 0 0 ≤ 8) }
    ensures { result ≡ places_sound number handed 0 (places_in (get_or words.now 0 0) (drop 2 words.now)) }
{
    let mut good = true;
    let mut least: u32 = 0;
    // by index: the first word tells how many pairs of words follow
    for k in 0..words[0] as usize {
        let old = words[2 * k + 2];
        let new = words[2 * k + 3];
        good &= (least <= new) & (new <= old) & (old < number) & (new <= handed);
        least = new;
    }
    good
}

// Are the places of an issue's lifts right, in the order as lifted and after a delivered total?
fn placed(nets: &[i32], lifts: &[u32], i: usize, d: u32) -> bool
    requires { CanPlace nets.now lifts.now i }
    ensures { result ≡ places_sound (length (order_in false nets.now lifts.now i)) (covered (order_in false nets.now lifts.now i) d) 0 (lifts_at lifts.now i) }
{
    let s = i * LIFT_WORDS;
    let e = s + LIFT_WORDS;
    let mut runs = [0u32; RUN_COUNT];
    let n = ordering::ranked(nets, i, &mut runs);
    let k = handover::number(&runs[..n]);
    if !places_sound(&lifts[s..e], k, k) {
        return false;
    }
    let m = lifted::lift_all(&lifts[s..e], &mut runs, n);
    let h = handover::handover(&runs[..m], d);
    places_sound(&lifts[s..e], k, h.count)
}

// Are an issue's lifts sound?
fn issue_lifts<'a>(
    phase: Phase,
    nets: &'a [i32],
    delivered: &'a [u32],
    lifts: &'a [u32],
    i: usize,
) -> bool
    requires { CanScan nets.now delivered.now lifts.now × (i < 16) }
    ensures { result ≡ lifts_sound phase (order_in false nets.now lifts.now) delivered.now lifts.now i }
{
    let w = i * LIFT_WORDS;
    let m = lifts[w];
    if MOST_LIFTS < m {
        return false;
    }
    let s = i * ACCOUNT_COUNT;
    let e = s + ACCOUNT_COUNT;
    let d = book::total(&delivered[s..e]);
    if d + m < lifts[w + 1] {
        return false;
    }
    if m == 0 {
        return true;
    }
    if taking(phase) {
        return false;
    }
    placed(nets, lifts, i, d)
}

// Are all issues' lifts sound?
pub fn lifts_sound<'a>(
    phase: Phase,
    nets: &'a [i32],
    delivered: &'a [u32],
    lifts: &'a [u32],
) -> bool
    requires { CanScan nets.now delivered.now lifts.now }
    ensures { result ≡ all_lifts phase nets.now delivered.now lifts.now }
{
    let mut good = true;
    for i in 0..ISSUE_COUNT {
        good &= issue_lifts(phase, nets, delivered, lifts, i);
    }
    good
}
