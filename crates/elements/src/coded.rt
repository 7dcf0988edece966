// Values of one octet that have a code for each case. Five impls alike: each names its own two tables in ghost
// members, which a macro or derive of our own can't write.
ghost use Rattle.std.specs.Prelude.{◌≡◌, ℕ, Option};
ghost use Rattle.cbsp.specs.Channels.{channel_code, channel_of};
ghost use Rattle.cbsp.specs.Decoding.{decoded};
ghost use Rattle.elements.specs.Codes.{broadcast_code, broadcast_of, category_code, category_of, cause_code, cause_of, recovery_code, recovery_of};

use crate::broadcast::BroadcastType;
use crate::category::Category;
use crate::cause::Cause;
use crate::recovery::Recovery;
use cbsp::channel::Channel;
use cbsp::code::UnknownCode;

// Its conversions from and to an octet go by two tables.
pub trait Coded: TryFrom<u8, Error = UnknownCode> + Into<u8> {
    ghost encode: { Self → ℕ };

    ghost decode: { ℕ → Option Self };

    ghost decodes: { (o : ℕ) (r : _) → Self.try_from_gives o r → r ≡ decoded decode o };

    ghost encodes: { (v : Self) (o : ℕ) → Self.converts v o → o ≡ encode v };
}

impl Coded for Channel {
    ghost encode = { channel_code };

    ghost decode = { channel_of };

    ghost decodes = { λ o r h. h };

    ghost encodes = { λ v o h. h };
}

impl Coded for Cause {
    ghost encode = { cause_code };

    ghost decode = { cause_of };

    ghost decodes = { λ o r h. h };

    ghost encodes = { λ v o h. h };
}

impl Coded for Category {
    ghost encode = { category_code };

    ghost decode = { category_of };

    ghost decodes = { λ o r h. h };

    ghost encodes = { λ v o h. h };
}

impl Coded for Recovery {
    ghost encode = { recovery_code };

    ghost decode = { recovery_of };

    ghost decodes = { λ o r h. h };

    ghost encodes = { λ v o h. h };
}

impl Coded for BroadcastType {
    ghost encode = { broadcast_code };

    ghost decode = { broadcast_of };

    ghost decodes = { λ o r h. h };

    ghost encodes = { λ v o h. h };
}
