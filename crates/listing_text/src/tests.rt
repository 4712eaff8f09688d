// Lines that are refused and lines that are read, and a listing's lines.
use super::lines::{push_end, push_label, push_refused, push_setting};
use super::request::Request;
use std::test::Fail;

#[test]
fn refuses_malformed_lines(rt: HostRuntime) {
    let lines = [
        "",
        "\n",
        "3 2 3 1 0",
        "3  2 3 1 0\n",
        " 3 2 3 1 0\n",
        "3 2 3 1 0 \n",
        "3 2 3 1 0\r\n",
        "3 2 3 1\n",
        "3 2 3 1 0 5\n",
        "3 2 3 +1 0\n",
        "3 2 3 00000000001 0\n",
        "3 2 3 4294967296 0\n",
        "3 2 3 1 2\n",
    ];
    for line in lines.iter() {
        assert!(rt; Request::read(line.as_bytes()).is_none(), "{}", line);
    }
}

#[test]
fn repeats_requests(rt: HostRuntime) -> Result<(), Fail> {
    let mut out = String::new(rt.alloc());
    for line in [
        "3 2 3 1 0\n",
        "0000000003 02 3 4294967295 01\nrest \n",
        "0 00 9 10 1\n\n",
    ]
    .iter()
    {
        let request = Request::read(line.as_bytes()).ok_or("refused")?;
        request.push_header(&mut out)?;
    }
    assert!(rt; out.as_str() == "strip 3 2 3 1 0\nstrip 3 2 3 4294967295 1\nstrip 0 0 9 10 1\n");
    Ok(())
}

#[test]
fn writes_rows(rt: HostRuntime) -> Result<(), Fail> {
    let mut out = String::new(rt.alloc());
    push_label(&mut out, 65535)?;
    push_setting(&mut out, 0, 65535)?;
    push_setting(&mut out, 15, 0)?;
    push_end(&mut out)?;
    push_refused(&mut out, 18)?;
    assert!(rt; out.as_str() == "65535 0/65535 15/0\nrefused 18\n");
    Ok(())
}
