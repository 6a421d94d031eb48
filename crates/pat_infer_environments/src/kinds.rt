// Polarities and usages.
ghost use Rattle.std.specs.Prelude.{◌≡◌};
ghost use Rattle.pat_type_schemes_spec.specs.Compared.{is_receiver as is_receiver_of, polarity_eq, is_second as is_second_of};
ghost use Rattle.pat_primitives.specs.Views.{polarity_view};
ghost use Rattle.pat_types.specs.Views.{usage_view};

use pat_primitives::Polarity;
use pat_types::Usage;

/// Whether the polarity is that of receiving.
pub fn is_receiver(polarity: Polarity) -> bool
    ensures { result ≡ is_receiver_of (polarity_view polarity) }
{
    matches!(polarity, Polarity::Receiving)
}

/// Whether the usage is second-class.
pub fn is_second(usage: Usage) -> bool
    ensures { result ≡ is_second_of (usage_view usage) }
{
    matches!(usage, Usage::Second)
}
