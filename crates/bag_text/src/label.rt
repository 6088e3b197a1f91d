//! Labels of elements.
ghost use Rattle.std.specs.Prelude.{◌≡◌};
ghost use Rattle.bag_text.specs.Text as spec;

/// Whether two labels are one, ignoring ASCII case (RFC 8493, 2.2.2).
pub fn same_label(a: &str, b: &str) -> bool
    ensures { result ≡ spec.same_label a.now b.now }
{
    a.eq_ignore_ascii_case(b)
}
