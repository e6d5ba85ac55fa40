// The panel label of a name. A refusal leaves the panel as it was.
#![tactic(auto)]

ghost use Rattle.verdict.specs.Answer.{outcome_of};
ghost use Rattle.std.specs.Prelude.{◌≡◌, ◌≤◌, ◌<◌, length, not};
ghost use Rattle.std.specs.List.{position_from};
ghost use Rattle.wire.specs.Wire.{splice};
ghost use Rattle.label.specs.Label.{printable, padded, abridged, label_of, label_out};

use verdict::Refusal;

// The place of the first byte that isn't printable.
#[tactic(auto, unfolding(crate::specs::Label::printable))]
fn first_unprintable(name: &[u8]) -> Option<usize>
    ensures { result ≡ position_from (λ b. not (printable b)) 0 name.now }
{
    name.iter().position(|b| !matches!(*b, b' '..=b'~'))
}

// Puts a name of at most sixteen bytes, then spaces.
fn pad(panel: &mut [u8], name: &[u8])
    requires { length name.now ≤ 16 }
    ensures { panel.new ≡ splice panel.old 0 (padded name.now) }
{
    let n = name.len();
    let spaces = [b' '; 16];
    wire::copy_at(panel, 0, name);
    wire::copy_at(panel, n, &spaces[n..]);
}

// Puts the first eight bytes of a longer name, a tilde and the last seven.
fn abridge(panel: &mut [u8], name: &[u8])
    requires { 16 < length name.now }
    ensures { panel.new ≡ splice panel.old 0 (abridged name.now) }
{
    let last = name.len() - 7;
    wire::copy_at(panel, 0, &name[..8]);
    wire::put_u8(panel, 8, b'~');
    wire::copy_at(panel, 9, &name[last..]);
}

// Puts the label of a name into the first sixteen bytes of a panel; a longer panel keeps the rest.
pub fn label(name: &[u8], panel: &mut [u8]) -> Result<bool, Refusal>
    ensures { (outcome_of result ≡ label_of name.now (length panel.old))
        × (panel.new ≡ label_out name.now panel.old) }
{
    // the whole name, since a byte that isn't printable is refused where it would not show, too
    if let Some(p) = first_unprintable(name) {
        return Err(Refusal {
            number: 15,
            place: p as u64,
        });
    }
    if panel.len() < 16 {
        return Err(Refusal {
            number: 12,
            place: 16,
        });
    }
    if 16 < name.len() {
        abridge(panel, name);
        return Ok(true);
    }
    pad(panel, name);
    Ok(false)
}
