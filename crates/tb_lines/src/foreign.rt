// A line that isn't meant for this server, such as the first of what a browser sends.

ghost use Rattle.std.specs.Prelude.{◌≡◌};
ghost use Rattle.tb_lines.specs.Streams.{is_foreign};

/// Whether a line ends with a blank and a version of HTTP, as the first line of a request does.
pub(crate) fn is_foreign(line: &[u8]) -> bool
    ensures { result ≡ is_foreign line.now }
{
    line.ends_with(b" HTTP/1.1")
        || line.ends_with(b" HTTP/1.0")
        || line.ends_with(b"\tHTTP/1.1")
        || line.ends_with(b"\tHTTP/1.0")
}
