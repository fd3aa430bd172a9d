// Joining two accounts within their ceilings, figure by figure.
ghost use Rattle.std.specs.Prelude.{◌≡◌, ◌+◌, ◌<◌, ◌^◌};
ghost use Rattle.account.specs.Ceilings.{Within};
ghost use Rattle.account.specs.Joining.{onward, fill, joining};

use crate::Account;

// A run, with the next portion's added where it takes in the `n` of its own.
fn go_on(run: u32, n: u32, next: u32) -> u32
    requires { run + next < 2 ^ 32 }
    ensures { result ≡ onward run n next }
{
    if run == n { run + next } else { run }
}

// The left's settings as far as its count, then the right's from its first.
fn fill_first(n: u32, left: [u32; 5], right: [u32; 5]) -> [u32; 5]
    ensures { result ≡ fill n left right }
{
    if 5 <= n {
        return left;
    }
    let n = n as usize;
    let mut first = left;
    first[n..].copy_from_slice(&right[..5 - n]);
    first
}

#[tactic(auto, unfolding(crate::specs::Joining::joining))]
pub(crate) fn add(left: Account, right: Account) -> Account
    requires left_within { Within left }
    requires right_within { Within right }
    ensures { result ≡ joining left right }
{
    Account {
        count: left.count + right.count,
        mass: left.mass + right.mass,
        vmass: left.vmass + right.vmass,
        mmass: left.mmass + right.mmass,
        length: left.length + right.length,
        axles: left.axles + right.axles,
        vaxles: left.vaxles + right.vaxles,
        engines: left.engines + right.engines,
        mset: left.mset + right.mset,
        isolated: left.isolated + right.isolated,
        dloads: left.dloads + right.dloads,
        leading: go_on(left.leading, left.count, right.leading),
        trailing: go_on(right.trailing, right.count, left.trailing),
        longest: left
            .longest
            .max(right.longest)
            .max(left.trailing + right.leading),
        behind: left.behind | right.behind | ((left.engines < left.count) & (0 < right.engines)),
        rule16: left.rule16 | right.rule16,
        rule17: left.rule17 | right.rule17,
        rule18: left.rule18 | right.rule18,
        slowest: left.slowest.min(right.slowest),
        first: fill_first(left.count, left.first, right.first),
        vlength: left.vlength + right.vlength,
        enginemmass: left.enginemmass + right.enginemmass,
        wagonvmass: left.wagonvmass + right.wagonvmass,
        enginenotm: left.enginenotm | right.enginenotm,
    }
}
