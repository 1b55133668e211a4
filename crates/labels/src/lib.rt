// Labels: for each pixel the number of its entry, in 16 bits. Labels that are stored as one byte each are widened.
#![tactic(auto)]

ghost use Rattle.std.specs.Prelude.{◌≡◌, ◌<◌, ◌^◌, length};

// The label that the pixels of an entry bear: the number of the entry.
pub fn label_of(entry: usize) -> u16
    requires { entry < 2 ^ 16 }
    ensures { result ≡ entry }
{
    entry as u16
}

// Widens each label into the same place.
pub fn widen_labels(narrow: &[u8], labels: &mut [u16])
    requires { length narrow.now ≡ length labels.old }
    ensures { labels.new ≡ narrow.now }
{
    for (i, label) in narrow.iter().enumerate() {
        labels[i] = u16::from(*label);
    }
}
