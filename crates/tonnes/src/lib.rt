// From grams of carbon dioxide equivalent to tonnes.
#![tactic(auto)]

ghost use Rattle.std.specs.Prelude.{◌≡◌};
ghost use Rattle.tonnes.specs.Tonnes.{net_of, credited_of};

const TONNE: i64 = 1_000_000;

const HALF_TONNE: i64 = 500_000;

// A signed total of grams in tonnes, nearest; an exact half goes to the lower number (house).
pub fn net(total: i64) -> i64
    ensures { result ≡ net_of total }
{
    let tonnes = total / TONNE;
    let rest = total % TONNE;
    if HALF_TONNE < rest {
        return tonnes + 1;
    }
    if rest <= -HALF_TONNE {
        return tonnes - 1;
    }
    tonnes
}

// Credited tonnes are never below 0.
pub fn credited(net: i64) -> u64
    ensures { result ≡ credited_of net }
{
    net.max(0) as u64
}
