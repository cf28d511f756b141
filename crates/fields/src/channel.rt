//! The channel of a record: there, and its number.
ghost use Rattle.std.specs.Prelude.{◌≡◌, true};
ghost use Rattle.forms.specs.Fields.Channel.{encode_channel, has_channel};

pub fn has_channel(channel: Option<u32>) -> bool
    ensures { result ≡ has_channel true channel }
{
    channel.is_some()
}

/// 0 where it is absent.
pub fn channel_of(channel: Option<u32>) -> u32
    ensures { result ≡ encode_channel channel }
{
    channel.unwrap_or(0)
}
