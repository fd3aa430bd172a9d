// The cross-border rules: each its number and whether it is broken, in the order they are asked.
ghost use Rattle.std.specs.Prelude.{◌≡◌};
ghost use Rattle.rules.specs.Families.{rules_listed, first_rule, still_of};
ghost use Rattle.rules.specs.CrossBorder.{common_rules, family_rules};

use facts::Facts;
use order::Order;

// 15 to 23, common to every category.
pub(crate) fn common_rules(f: Facts) -> [(u8, bool); 9]
    ensures { rules_listed result ≡ common_rules f }
{
    [
        (15, f.behind),
        (16, f.setR),
        (17, f.notJoined),
        (18, f.matrossow),
        (19, f.firstIsolated),
        (20, f.lastIsolated),
        (21, f.trainLength > 7400),
        (22, f.hauledLength > 7000),
        (23, f.axles > 250),
    ]
}

// The most engines, working and hauled, of 1 to 3, and of 4 and 5 (rule 31).
const ENGINES: u32 = 3;

const ENGINES_G: u32 = 6;

// 31 to 44, which ask nothing that differs within 1 to 3, or within 4 and 5.
pub(crate) fn family_rules(isg: bool, f: Facts, o: Order) -> [(u8, bool); 10]
    ensures { rules_listed result ≡ family_rules (still_of isg o) f }
{
    let load = o.coupling.min(o.admissible);
    let most = if isg { ENGINES_G } else { ENGINES };
    [
        (31, f.engines > most),
        (32, isg & (f.vmass > 2000)),
        (33, isg & (f.longest > 10)),
        (34, isg & (f.vaxles > 12)),
        (35, isg & (f.hauledMass > load)),
        (40, !isg & (f.hauledMass > 16000)),
        (41, !isg & (f.hauledMass <= 12000) & f.hauledM),
        (42, !isg & (f.hauledMass > 8000) & f.workingNotM),
        (43, !isg & (f.hauledMass > 12000) & f.firstFiveV),
        (44, !isg & (f.hauledMass > 12000) & f.afterFifthM),
    ]
}

// The number of the first that is broken.
pub(crate) fn first_rule(rules: &[(u8, bool)]) -> Option<u8>
    ensures { result ≡ first_rule (rules_listed rules.now) }
{
    rules
        .iter()
        .find(|(_, broken)| *broken)
        .map(|(number, _)| *number)
}
