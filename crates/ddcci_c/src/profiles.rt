// The comparison of two settings profiles for C.
ghost use Rattle.std.specs.Prelude.{◌≡◌};
ghost use Rattle.profile_compare_rules.specs.Compare.{lent, outcome, compare_profiles};

use profile_compare_rules::Compared;

// Compares two profiles, and lists the codes that are in one only or whose values differ, rising.
// Each stands at its entry of the codes, with its value of the first profile and of the second in the other two arrays.
// A profile that does not have the code has the value 65,536 there.
// Returns how many differences are listed; or 17 with the profile and where its first bad record starts, the first
// profile before the second; then 1 where an array is too short. A refusal lists nothing.
#[unsafe(no_mangle)]
pub extern "C" fn ddcci_compare_profiles(
    first: &[u8],
    second: &[u8],
    codes: &mut [u8],
    firsts: &mut [u32],
    seconds: &mut [u32],
) -> Compared
    ensures { outcome result (lent codes.new firsts.new seconds.new) ≡ compare_profiles first.now second.now (lent codes.old firsts.old seconds.old) }
{
    ddcci::profiles::ddcci_compare_profiles(first, second, codes, firsts, seconds)
}
