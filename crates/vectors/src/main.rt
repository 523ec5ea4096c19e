// The vectors of RFC 1321, A.5, and of RFC 2202, 2, one line each: its name and its digest.
#![tactic(auto)]

ghost use Rattle.std.specs.Prelude.{◌≡◌, ◌<◌, length};
ghost use Rattle.vectors.specs.Hex.{digit_of, hex_line};

use std::io;

fn digit(n: u8) -> u8
    requires { n < 16 }
    ensures { result ≡ digit_of n }
{
    if n < 10 { 48 + n } else { 87 + n }
}

// A digest in hexadecimal, with the end of the line.
fn hex(d: &[u8; 16]) -> [u8; 33]
    ensures { result ≡ hex_line d.now }
{
    let mut out = [10u8; 33];
    for i in 0..16 {
        out[2 * i] = digit(d[i] / 16);
        out[2 * i + 1] = digit(d[i] % 16);
    }
    out
}

// Writes a name, a blank and a digest. What is written is compared with the stored output, not proved.
fn line<W: io::Write>(out: &mut W, name: &[u8], d: [u8; 16]) -> io::Result<()> {
    let text = hex(&d);
    out.write_all(name)?;
    out.write_all(b" ")?;
    out.write_all(&text)
}

fn md5_suite<W: io::Write>(out: &mut W) -> io::Result<()> {
    line(out, b"MD5 1", md5_digest::of(b""))?;
    line(out, b"MD5 2", md5_digest::of(b"a"))?;
    line(out, b"MD5 3", md5_digest::of(b"abc"))?;
    line(out, b"MD5 4", md5_digest::of(b"message digest"))?;
    line(out, b"MD5 5", md5_digest::of(b"abcdefghijklmnopqrstuvwxyz"))?;
    line(
        out,
        b"MD5 6",
        md5_digest::of(b"ABCDEFGHIJKLMNOPQRSTUVWXYZabcdefghijklmnopqrstuvwxyz0123456789"),
    )?;
    line(
        out,
        b"MD5 7",
        md5_digest::of(
            b"12345678901234567890123456789012345678901234567890123456789012345678901234567890",
        ),
    )
}

// The bytes 01 to 19, in hexadecimal.
fn counted() -> [u8; 25] {
    [
        1, 2, 3, 4, 5, 6, 7, 8, 9, 10, 11, 12, 13, 14, 15, 16, 17, 18, 19, 20, 21, 22, 23, 24, 25,
    ]
}

fn hmac_suite<W: io::Write>(out: &mut W) -> io::Result<()> {
    let key1 = [0x0bu8; 16];
    let key3 = [0xaau8; 16];
    let data3 = [0xddu8; 50];
    let key4 = counted();
    let data4 = [0xcdu8; 50];
    let key5 = [0x0cu8; 16];
    let key6 = [0xaau8; 80];
    line(out, b"HMAC-MD5 1", md5_hmac::of(&key1, b"Hi There"))?;
    line(
        out,
        b"HMAC-MD5 2",
        md5_hmac::of(b"Jefe", b"what do ya want for nothing?"),
    )?;
    line(out, b"HMAC-MD5 3", md5_hmac::of(&key3, &data3))?;
    line(out, b"HMAC-MD5 4", md5_hmac::of(&key4, &data4))?;
    line(
        out,
        b"HMAC-MD5 5",
        md5_hmac::of(&key5, b"Test With Truncation"),
    )?;
    line(
        out,
        b"HMAC-MD5 6",
        md5_hmac::of(
            &key6,
            b"Test Using Larger Than Block-Size Key - Hash Key First",
        ),
    )?;
    line(
        out,
        b"HMAC-MD5 7",
        md5_hmac::of(
            &key6,
            b"Test Using Larger Than Block-Size Key and Larger Than One Block-Size Data",
        ),
    )
}

fn main(rt: HostRuntime) -> io::Result<()> {
    let mut out = rt.stdout();
    md5_suite(&mut out)?;
    hmac_suite(&mut out)
}
