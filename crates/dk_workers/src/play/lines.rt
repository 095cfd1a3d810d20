//! The lines of a script, entered by a pass as connects, posts and ticks.
ghost use Rattle.std.specs.Prelude.{◌≡◌, ◌∷◌, [], true, false, IfErr, OnErr, OnOk};
ghost use Rattle.std.specs.FinMap as maps;
ghost use Rattle.dk_types.specs.declared.job.Input.TheVariants.{Disconnect};
ghost use Rattle.dk_model.specs.declared.script.Line.TheVariants as line;
ghost use Rattle.dk_model.specs.Lawful.{IsInput};
ghost use Rattle.dk_workers.specs.Faults.{IsLineFault};
ghost use Rattle.dk_workers.specs.Logins.{said_of, CanBeEntered, MayStandAll};
ghost use Rattle.dk_workers.specs.Lines.{BeginsLines, EntersLine, EntersLines, IsPostedBy, PassEnters, PostsFor};

use super::fault::PlayFault;
use super::logins::Logins;
use dk_core::{ConnectRefused, PostRefused};
use dk_disk::Home;
use dk_host::{Host, Hosting, WorldBook};
use dk_model::Line;
use dk_turn::{Naming, Pass};
use dk_types::{Blob, ConnNo, Input, Name};
use std::sync::Wait;

/// Connects. From now on the name means the new connection.
fn login<W: Hosting, J: Naming, M: Home, R: Wait>(
    rt: &R,
    host: &Host<W, J, M>,
    pass: &mut Pass<WorldBook<W>, J>,
    logins: &mut Logins,
    name: &Name,
) -> Result<(), PlayFault>
    ensures entered { OnOk result (EntersLine W.opened J.name.passes pass.old pass.new (said_of logins.old) (line.Login name.now) (said_of logins.new)) }
    ensures begun { OnErr result (BeginsLines W.opened J.name.passes pass.old pass.new (said_of logins.old) (line.Login name.now ∷ [])) }
    ensures fault { IfErr result IsLineFault }
{
    match host.connect(rt, pass, name) {
        Ok(conn) => {
            logins.log_in(name, conn)?;
            Ok(())
        }
        Err(ConnectRefused::NoMemory) => Err(PlayFault::NoMemory),
        Err(ConnectRefused::Exhausted { next }) => Err(PlayFault::Exhausted { next }),
    }
}

/// Posts an input to a connection. It is told whether it was taken, which decides nothing here.
fn post<W: Hosting, J: Naming, M: Home, R: Wait>(
    rt: &R,
    host: &Host<W, J, M>,
    pass: &mut Pass<WorldBook<W>, J>,
    conn: ConnNo,
    input: Input,
) -> Result<(), PlayFault>
    requires within { IsInput input }
    ensures posted { OnOk result (IsPostedBy W.opened J.name.passes pass.old pass.new conn input) }
    ensures none { OnErr result (PassEnters W.opened J.name.passes [] pass.old pass.new) }
    ensures fault { IfErr result IsLineFault }
{
    match host.post(rt, pass, conn, input) {
        Ok(()) | Err(PostRefused::Closed) | Err(PostRefused::QueueFull { .. }) => Ok(()),
        Err(PostRefused::NoMemory) => Err(PlayFault::NoMemory),
    }
}

/// Posts an input to the connection that the name means.
fn post_for<W: Hosting, J: Naming, M: Home, R: Wait>(
    rt: &R,
    host: &Host<W, J, M>,
    pass: &mut Pass<WorldBook<W>, J>,
    logins: &Logins,
    name: &Name,
    input: Input,
) -> Result<(), PlayFault>
    requires within { IsInput input }
    requires meant { maps.contains_key (said_of logins.now).means name.now ≡ true }
    ensures posted { OnOk result (PostsFor W.opened J.name.passes pass.old pass.new (said_of logins.now) name.now input) }
    ensures none { OnErr result (PassEnters W.opened J.name.passes [] pass.old pass.new) }
    ensures fault { IfErr result IsLineFault }
{
    let Some(conn) = logins.conn(name) else {
        unreachable!();
    };
    post(rt, host, pass, conn, input)
}

/// Posts a message to the connection that the name means.
fn send<W: Hosting, J: Naming, M: Home, R: Wait>(
    rt: &R,
    host: &Host<W, J, M>,
    pass: &mut Pass<WorldBook<W>, J>,
    logins: &Logins,
    name: &Name,
    text: &Blob,
) -> Result<(), PlayFault>
    requires { CanBeEntered (said_of logins.now) (line.Send name.now text.now) }
    ensures entered { OnOk result (EntersLine W.opened J.name.passes pass.old pass.new (said_of logins.now) (line.Send name.now text.now) (said_of logins.now)) }
    ensures none { OnErr result (PassEnters W.opened J.name.passes [] pass.old pass.new) }
    ensures fault { IfErr result IsLineFault }
{
    post_for(rt, host, pass, logins, name, Input::Message(text.clone()?))
}

/// Posts a message on a channel.
fn send_on<W: Hosting, J: Naming, M: Home, R: Wait>(
    rt: &R,
    host: &Host<W, J, M>,
    pass: &mut Pass<WorldBook<W>, J>,
    logins: &Logins,
    name: &Name,
    channel: &Name,
    text: &Blob,
) -> Result<(), PlayFault>
    requires { CanBeEntered (said_of logins.now) (line.Channel name.now channel.now text.now) }
    ensures entered { OnOk result (EntersLine W.opened J.name.passes pass.old pass.new (said_of logins.now) (line.Channel name.now channel.now text.now) (said_of logins.now)) }
    ensures none { OnErr result (PassEnters W.opened J.name.passes [] pass.old pass.new) }
    ensures fault { IfErr result IsLineFault }
{
    let channel = channel.clone()?;
    let body = text.clone()?;
    post_for(
        rt,
        host,
        pass,
        logins,
        name,
        Input::Channel { channel, body },
    )
}

/// Posts a disconnect. From now on the name means nothing.
fn leave<W: Hosting, J: Naming, M: Home, R: Wait>(
    rt: &R,
    host: &Host<W, J, M>,
    pass: &mut Pass<WorldBook<W>, J>,
    logins: &mut Logins,
    name: &Name,
    graceful: bool,
) -> Result<(), PlayFault>
    requires { maps.contains_key (said_of logins.old).means name.now ≡ true }
    ensures posted { OnOk result (PostsFor W.opened J.name.passes pass.old pass.new (said_of logins.old) name.now (Disconnect graceful)) }
    ensures means { (said_of logins.new).means ≡ maps.remove (said_of logins.old).means name.now }
    ensures opened { (said_of logins.new).opened ≡ (said_of logins.old).opened }
    ensures none { OnErr result (PassEnters W.opened J.name.passes [] pass.old pass.new) }
    ensures fault { IfErr result IsLineFault }
{
    let posted = post_for(rt, host, pass, logins, name, Input::Disconnect { graceful });
    logins.log_out(name);
    posted
}

/// Enters a line.
fn enter<W: Hosting, J: Naming, M: Home, R: Wait>(
    rt: &R,
    host: &Host<W, J, M>,
    pass: &mut Pass<WorldBook<W>, J>,
    logins: &mut Logins,
    line: &Line,
) -> Result<(), PlayFault>
    requires { CanBeEntered (said_of logins.old) line.now }
    ensures entered { OnOk result (EntersLine W.opened J.name.passes pass.old pass.new (said_of logins.old) line.now (said_of logins.new)) }
    ensures begun { OnErr result (BeginsLines W.opened J.name.passes pass.old pass.new (said_of logins.old) (line.now ∷ [])) }
    ensures fault { IfErr result IsLineFault }
{
    match line {
        Line::Login { name } => login(rt, host, pass, logins, name),
        Line::Send { name, text } => send(rt, host, pass, logins, name, text),
        Line::Channel {
            name,
            channel,
            text,
        } => send_on(rt, host, pass, logins, name, channel, text),
        Line::Logout { name } => leave(rt, host, pass, logins, name, true),
        Line::Drop { name } => leave(rt, host, pass, logins, name, false),
        Line::Tick { moment } => {
            host.tick(rt, pass, *moment)?;
            Ok(())
        }
    }
}

/// Enters the lines in their order.
pub(crate) fn enter_all<W: Hosting, J: Naming, M: Home, R: Wait>(
    rt: &R,
    host: &Host<W, J, M>,
    pass: &mut Pass<WorldBook<W>, J>,
    logins: &mut Logins,
    lines: &[Line],
) -> Result<(), PlayFault>
    requires { MayStandAll (said_of logins.old) lines.now }
    ensures entered { OnOk result (EntersLines W.opened J.name.passes pass.old pass.new (said_of logins.old) lines.now (said_of logins.new)) }
    ensures begun { OnErr result (BeginsLines W.opened J.name.passes pass.old pass.new (said_of logins.old) lines.now) }
    ensures fault { IfErr result IsLineFault }
{
    for line in lines {
        enter(rt, host, pass, logins, line)?;
    }
    Ok(())
}
