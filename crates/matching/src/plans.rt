// How a plan is written, as a caller in C reads it: one number for each crew, 0 for none, else the site's number plus 1.
ghost use Rattle.std.specs.Prelude.{◌≡◌, ℕ, ◌^◌, ◌<◌, ◌≤◌, length};
ghost use Rattle.matching.specs.Plans.{number_written, site_written};
ghost use Rattle.matching.specs.Slots.{EachSlot};

// The number that is written for a crew with a site, or without one.
pub(crate) fn number_written(site: Option<u16>) -> u16
    requires { number_written site < 2 ^ 16 }
    ensures { result ≡ number_written site }
{
    site.map_or(0, |site| site + 1)
}

// The site for which a number is written, if any.
pub(crate) fn site_written(number: u16) -> Option<u16>
    ensures { result ≡ site_written number }
{
    number.checked_sub(1)
}

// Writes into every slot what a function gives for its index.
pub(crate) fn write_each<T: Drop, F: Fn(u16) -> T>(slots: &mut [T], of: F)
    requires few { length slots.old ≤ 2 ^ 16 }
    requires callable { (i : ℕ) → i < length slots.old → F.pre of i }
    ensures { EachSlot slots.new (F.post of) }
{
    for (index, slot) in slots.iter_mut().enumerate() {
        // `enumerate` counts in `usize`, and a second counter of 16 bits beside it would say no more.
        *slot = of(index as u16);
    }
}
